// Asking about rows that there are not.
use forms::refusals::Refused;
use std::test::Fail;
use texts::RowText;
use verdicts::faults::RowFault;
use verdicts::prepared::Prepared;

#[test]
fn rows_past_the_table(rt: HostRuntime) -> Result<(), Fail> {
    let table = Prepared::of(&RowText::new(b"V,,,\nE,0000000000000002,0,0\n"))?;
    for pair in [(2, 0), (0, 2), (255, 255)] {
        assert_eq!(rt; table.below(pair), Err(RowFault::Outside));
        assert_eq!(rt; table.in_table(pair), Err(RowFault::Outside));
    }
    assert_eq!(rt; table.below((1, 1)), Ok(true));
    assert_eq!(rt; table.in_table((0, 1)), Ok(()));
    Ok(())
}

#[test]
fn faults_in_words(rt: HostRuntime) -> Result<(), Fail> {
    let faults = [(
        RowFault::Outside,
        21,
        "refused (21): a row number is not below the count of rows",
    )];
    for (fault, number, words) in faults.iter().copied() {
        assert_eq!(rt; fault.number(), number);
        let text = format!(in rt.alloc(); "{fault}")?;
        assert_eq!(rt; text.as_str(), words);
    }
    Ok(())
}
