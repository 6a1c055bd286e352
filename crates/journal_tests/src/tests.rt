//! Each table of steps, and faults of the log disk in a commit.
use crate::lives::{Asked, formatted, live};
use crate::locks::{A_SCAN, AN_END, BEGINS, LEAST_HOLDER};
use crate::loser_lives::{LOSERS, LOSERS_LEFT, LOSERS_UNDONE, TWO_RESTORES};
use crate::writes::{FAILED_COMMIT, FULL, FULL_BY_OPERATORS, THREE_WRITES, UNDONE_IN_PART};
use journal_steps::{Line, Made};
use std::alloc::Global;
use std::sync::Wait;
use std::test::Fail;
use store_model::Fault;

/// What a life on a new log with this limit told otherwise.
fn told<R: Wait>(
    rt: &R,
    alloc: Global,
    limit: u32,
    calls: Option<u64>,
    lines: &[Line<'_>],
) -> Result<String, Fault> {
    match formatted(alloc, limit) {
        Some(disk) => {
            let asked = Asked {
                lines,
                calls,
                put: false,
            };
            live(rt, alloc, disk, asked)?.other
        }
        None => Err(Fault::NotFormatted),
    }
}

#[test]
fn each_call_tells_what_it_enters(rt: HostRuntime) -> Result<(), Fail> {
    for lines in [BEGINS, A_SCAN, LEAST_HOLDER, AN_END, TWO_RESTORES] {
        assert_eq!(rt; told(&rt, rt.alloc(), 12, None, lines)?.as_str(), "");
    }
    for lines in [FULL, FULL_BY_OPERATORS, THREE_WRITES, UNDONE_IN_PART] {
        assert_eq!(rt; told(&rt, rt.alloc(), 8, None, lines)?.as_str(), "");
    }
    Ok(())
}

/// A commit makes four calls of the log disk. Whichever fails, each later call of the journal is answered as ended, with the LSN
/// that was durable then.
#[test]
fn a_life_ends_at_any_call_of_a_commit(rt: HostRuntime) -> Result<(), Fail> {
    for calls in 0..4u64 {
        let told = told(&rt, rt.alloc(), 8, Some(calls), FAILED_COMMIT)?;
        assert_eq!(rt; told.as_str(), "", "where {calls} calls pass");
    }
    Ok(())
}

/// A life whose log disk lets all calls pass.
fn wholly<'a>(lines: &'a [Line<'a>]) -> Asked<'a> {
    Asked {
        lines,
        calls: None,
        put: false,
    }
}

/// What three lives on one log told otherwise.
fn three_lives<R: Wait>(rt: &R, alloc: Global) -> Result<String, Fault> {
    let Some(disk) = formatted(alloc, 8) else {
        return Err(Fault::NotFormatted);
    };
    let first = live(rt, alloc, disk, wholly(LOSERS_LEFT))?;
    let second = live(rt, alloc, first.disk, wholly(LOSERS))?;
    let third = live(rt, alloc, second.disk, wholly(LOSERS_UNDONE))?;
    let (first, second, third) = (first.other?, second.other?, third.other?);
    Ok(format!(in alloc; "{first}{second}{third}")?)
}

#[test]
fn losers_are_undone_over_two_lives(rt: HostRuntime) -> Result<(), Fail> {
    assert_eq!(rt; three_lives(&rt, rt.alloc())?.as_str(), "");
    Ok(())
}

/// What becomes of a put and its commit on a new log.
fn put_made<R: Wait>(rt: &R, alloc: Global) -> Result<Option<Made>, Fault> {
    let Some(disk) = formatted(alloc, 8) else {
        return Err(Fault::NotFormatted);
    };
    let asked = Asked {
        lines: &[],
        calls: None,
        put: true,
    };
    Ok(live(rt, alloc, disk, asked)?.put)
}

/// A begin, a lock or a group that lacks memory has entered nothing, and is entered where it is made once more; a commit lacks
/// none. bench/refused_memory has each allocation refused in turn, and then all from one on.
#[test]
fn a_put_that_lacks_memory_is_as_before(rt: HostRuntime) -> Result<(), Fail> {
    match put_made(&rt, rt.alloc()) {
        Ok(Some(Made::Once)) => Ok(()),
        Ok(Some(Made::Again)) => Err(Fail::new("refused, and as before")),
        Ok(Some(Made::Lacked)) => Err(Fail::new("refused twice")),
        Ok(Some(Made::Uncommitted)) => Err(Fail::new("a commit was refused")),
        Ok(Some(Made::Other)) => Err(Fail::new("not as before")),
        _ => Err(Fail::new("no fixture")),
    }
}
