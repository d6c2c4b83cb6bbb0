// The faults of a book in words, case by case.
use book::types::BookFault;
use fitting::faults::FitFault;
use relation::AdmissionFault;
use showing::faults::ShowFault;
use std::process::Abort;
use std::test::Fail;
use verdicts::faults::RowFault;

#[test]
fn words(rt: HostRuntime) -> Result<(), Fail> {
    let table = [
        (
            BookFault::NotAdmitted(AdmissionFault::LabelTwice { row: 10 }),
            "the book is shut: the table is not admitted (13): row 10 offers two different inhabited element rows with a common label",
        ),
        (
            BookFault::NoRow(RowFault::Outside),
            "refused (21): a row number is not below the count of rows",
        ),
        (
            BookFault::RelationLength,
            "refused (22): the length is not that of a relation between the rows, which is one bit a pair in 64-bit numbers, rounded up",
        ),
        (
            BookFault::BitOutside,
            "refused (23): the relation has a bit that is no pair's",
        ),
        (
            BookFault::RuleBroken { p: 1, q: 2 },
            "refused (24): the pair (1, 2) breaks the rules within the relation",
        ),
        (
            BookFault::NotShown(ShowFault::NotNo),
            "refused (25): the pair is not held as no, so there is nothing to show",
        ),
        (
            BookFault::NotShown(ShowFault::FewNodes),
            "refused (26): there are fewer nodes than one a row and one a pair of rows",
        ),
        (
            BookFault::NotFitted(FitFault::ManyNodes),
            "refused (30): there are more than 4160 nodes",
        ),
    ];
    for (fault, words) in table {
        let text = format!(in rt.alloc(); "{fault}")?;
        assert_eq!(rt; text.as_str(), words);
    }
    Ok(())
}
