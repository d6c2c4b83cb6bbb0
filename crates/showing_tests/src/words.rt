// The faults of showing and of fitting in words, case by case.
use fitting::faults::FitFault;
use showing::faults::ShowFault;
use std::process::Abort;
use std::test::Fail;
use verdicts::faults::RowFault;

#[test]
fn show_faults(rt: HostRuntime) -> Result<(), Fail> {
    let table = [
        (
            ShowFault::NoRow(RowFault::Outside),
            "refused (21): a row number is not below the count of rows",
        ),
        (
            ShowFault::NotNo,
            "refused (25): the first row is below the second, so there is nothing to show",
        ),
        (
            ShowFault::FewNodes,
            "refused (26): there are fewer nodes than one a row and one a pair of rows",
        ),
    ];
    for (fault, words) in table {
        let text = format!(in rt.alloc(); "{fault}")?;
        assert_eq!(rt; text.as_str(), words);
    }
    Ok(())
}

#[test]
fn fit_faults(rt: HostRuntime) -> Result<(), Fail> {
    let table = [
        (
            FitFault::NoRow(RowFault::Outside),
            "refused (21): a row number is not below the count of rows",
        ),
        (
            FitFault::ManyNodes,
            "refused (30): there are more than 4160 nodes",
        ),
        (
            FitFault::Unsound { node: 7 },
            "refused (31): node 7 is not sound: an element has a label up to 63 and points at two lower nodes, and a reference is to a channel row",
        ),
        (
            FitFault::RootOutside,
            "refused (32): the root is not one of the nodes",
        ),
        (
            FitFault::MarksLength,
            "refused (33): the marks have another length than the nodes take, which is one number a node",
        ),
    ];
    for (fault, words) in table {
        let text = format!(in rt.alloc(); "{fault}")?;
        assert_eq!(rt; text.as_str(), words);
    }
    Ok(())
}
