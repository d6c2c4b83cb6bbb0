// The lines of a row text, one for each row.
ghost use Rattle.texts.specs.declared.kinds.Kind.TheVariants.{Channel as channel-kind, Element as element-kind, Union as union-kind};
ghost use Rattle.texts.specs.Reading.{ThreeRead, BlanksRead, FieldsRead, LineRead};

use super::fields;
use super::fields::Value;
use super::kinds::Kind;
use forms::Row;

// Fields 1 to 3 of a line and the text behind it, or the first wrong field.
fn three<A: Value, B: Value, C: Value>(text: &[u8]) -> Result<((A, B, C), &[u8]), u8>
    ensures { ThreeRead A.Value.spells B.Value.spells C.Value.spells text.now result }
{
    let (first, after_first) = fields::read(text, 1)?;
    let (second, after_second) = fields::read(after_first, 2)?;
    let (third, next) = fields::read(after_second, 3)?;
    Ok(((first, second, third), next))
}

// The fields of a row that has nothing there.
fn blanks(text: &[u8]) -> Result<&[u8], u8>
    ensures { BlanksRead text.now result }
{
    let (((), (), ()), next) = three(text)?;
    Ok(next)
}

fn channel_fields(text: &[u8]) -> Result<(Row, &[u8]), u8>
    ensures { FieldsRead channel-kind text.now result }
{
    let ((capability, payload, ()), next) = three(text)?;
    Ok((Row::Channel(capability, payload), next))
}

fn element_fields(text: &[u8]) -> Result<(Row, &[u8]), u8>
    ensures { FieldsRead element-kind text.now result }
{
    let ((labels, inside, following), next) = three(text)?;
    Ok((
        Row::Element {
            labels,
            inside,
            following,
        },
        next,
    ))
}

fn union_fields(text: &[u8]) -> Result<(Row, &[u8]), u8>
    ensures { FieldsRead union-kind text.now result }
{
    let (((), left, right), next) = three(text)?;
    Ok((Row::Union(left, right), next))
}

// The row of the line that the text begins with and the text behind the line, or its first wrong field.
pub(crate) fn line(text: &[u8]) -> Result<(Row, &[u8]), u8>
    ensures { LineRead text.now result }
{
    let (kind, first) = fields::read(text, 0)?;
    match kind {
        Kind::Void => Ok((Row::Void, blanks(first)?)),
        Kind::Nothing => Ok((Row::Nothing, blanks(first)?)),
        Kind::Channel => channel_fields(first),
        Kind::Element => element_fields(first),
        Kind::Union => union_fields(first),
    }
}
