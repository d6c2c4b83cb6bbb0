// Asking about the rows of a table that is written as text.
use sets;
use std::process::Abort;
use std::test::Fail;
use texts::RowText;
use verdicts::prepared::Prepared;
use verdicts::prepared::deciding::PAIR_WORDS;

// Of each pair: whether its first row is below its second, asked by itself and among all verdicts, and how many pairs it leans on that were not known. Nothing is known at first; if it is kept, what earlier pairs lean on is known.
pub(crate) fn ask_all(
    rt: &impl Abort,
    text: &[u8],
    kept: bool,
    asks: &[((u8, u8), bool, usize)],
) -> Result<(), Fail> {
    let table = Prepared::of(&RowText::new(text))?;
    let verdicts = table.verdicts();
    let mut known = [0; PAIR_WORDS];
    for (pair, yes, count) in asks.iter().copied() {
        if !kept {
            known = [0; PAIR_WORDS];
        }
        assert_eq!(rt; table.below(pair)?, yes);
        assert_eq!(rt; table.relates(&verdicts, pair), yes);
        assert_eq!(rt; sets::join(&mut known, &table.leaned(pair)), count);
    }
    Ok(())
}
