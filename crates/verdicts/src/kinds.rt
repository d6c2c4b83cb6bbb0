// The sorts of rows that the rules speak of.
ghost use Rattle.std.specs.Prelude.{◌≡◌};
ghost use Rattle.verdicts.specs.Kinds.{void_row, channel_row, element_row};

use forms::Row;

// Whether it is a void row.
pub(crate) fn is_void(row: Option<Row>) -> bool
    ensures { result ≡ void_row row }
{
    matches!(row, Some(Row::Void))
}

// Whether it is a channel row.
pub(crate) fn is_channel(row: Option<Row>) -> bool
    ensures { result ≡ channel_row row }
{
    matches!(row, Some(Row::Channel(_, _)))
}

// Whether it is an element row.
pub(crate) fn is_element(row: Option<Row>) -> bool
    ensures { result ≡ element_row row }
{
    matches!(row, Some(Row::Element { .. }))
}
