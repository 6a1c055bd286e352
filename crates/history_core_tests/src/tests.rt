//! Each table of histories, and opening logs.
use crate::audit::{History, first_other};
use crate::journal_locks::{A_SCAN, AN_END, BEGINS, LEAST_HOLDER};
use crate::journal_losers::{LOSERS, LOSERS_LEFT, LOSERS_UNDONE, TWO_RESTORES};
use crate::journal_writes::{FAILED_COMMIT, FULL, FULL_BY_OPERATORS, THREE_WRITES, UNDONE_IN_PART};
use crate::locks::TWO_READERS;
use crate::splits::A_SPLIT;
use crate::transactions::{A_DEL, A_PUT, AN_ABORT, AN_UNDONE_LOSER, WITH_X};
use crate::upkeep::{A_CHECKPOINT, UPKEEP};
use operators::{Operators, boxed_operators};
use std::alloc::Global;
use std::test::Fail;
use store_model::Memory;

/// The first line of these histories that is judged otherwise than it says.
fn first_wrong<'a>(
    alloc: Global,
    operators: &Operators,
    histories: &[History<'a>],
) -> Result<Option<&'a str>, Memory> {
    for history in histories {
        if let Some(line) = first_other(alloc, operators, *history)? {
            return Ok(Some(line));
        }
    }
    Ok(None)
}

/// As [`first_wrong`]. The operators are made here alone, since each place proves its own boxes.
fn judged<'a>(alloc: Global, histories: &[History<'a>]) -> Result<Option<&'a str>, Memory> {
    let operators = boxed_operators!(alloc);
    first_wrong(alloc, &operators, histories)
}

#[test]
fn histories_are_audited(rt: HostRuntime) -> Result<(), Fail> {
    let histories = [
        A_PUT,
        A_DEL,
        AN_ABORT,
        AN_UNDONE_LOSER,
        TWO_READERS,
        A_SPLIT,
        A_CHECKPOINT,
        UPKEEP,
    ];
    assert_eq!(rt; judged(rt.alloc(), &histories)?, None);
    Ok(())
}

#[test]
fn what_the_journal_enters_is_audited(rt: HostRuntime) -> Result<(), Fail> {
    let histories = [
        BEGINS,
        A_SCAN,
        LEAST_HOLDER,
        AN_END,
        FAILED_COMMIT,
        LOSERS_LEFT,
        LOSERS,
        LOSERS_UNDONE,
        TWO_RESTORES,
    ];
    assert_eq!(rt; judged(rt.alloc(), &histories)?, None);
    Ok(())
}

#[test]
fn what_the_journal_writes_is_audited(rt: HostRuntime) -> Result<(), Fail> {
    let histories = [FULL, FULL_BY_OPERATORS, THREE_WRITES, UNDONE_IN_PART];
    assert_eq!(rt; judged(rt.alloc(), &histories)?, None);
    Ok(())
}

/// The empty log may open a life, and one with a commit; not one with a limit of 7, a second Format, none, or a Commit that
/// isn't the transaction's next record.
#[test]
fn lawful_opening_logs_alone_are_taken(rt: HostRuntime) -> Result<(), Fail> {
    let openings = [
        ("", true),
        (WITH_X, true),
        ("record 1 Format limit=7", false),
        ("record 1 Format limit=8\nrecord 2 Format limit=8", false),
        ("record 1 Commit tx=1 prev=0", false),
        (
            "record 1 Format limit=8\nrecord 2 Commit tx=1 prev=1",
            false,
        ),
    ];
    for (opening, taken) in openings {
        let history = History {
            opening,
            entries: "",
            changes: "",
        };
        assert_eq!(rt;
            judged(rt.alloc(), &[history])?.is_none(),
            taken,
            "{opening}"
        );
    }
    Ok(())
}
