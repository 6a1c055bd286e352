//! A segment that is restored, or isn't.
ghost use Rattle.std.specs.Prelude.{◌≡◌, List, []};
ghost use Rattle.page_ops.specs.Names.{life_names};
ghost use Rattle.wal_record.specs.declared.record.Record.{Record};

use crate::bases::BehindSplit;
use crate::life::{Begun, begin};
use crate::log::{FIRST, SECOND, image_lsn, is_state, state_of};
use crate::telling::Tells;
use front::Pass;
use media::PageDevice;
use media_mem::MemPages;
use operators::boxed_operators;
use page_image::seal;
use page_ops::{Entering, Life, Unnamed};
use page_repair::{Images, Supply};
use segment_restore::{Bases, LogSupply};
use std::alloc::Global;
use std::marker::Brand;
use std::sync::Wait;
use std::test::Fail;
use store_model::{Fault, Lsn, Memory, PageNo};
use wal_record::Entry;

/// What is done of the lost device.
#[derive(Clone, Copy, Debug, PartialEq, Eq)]
enum Step {
    /// The segment of this page is made ready, and again.
    Ready(PageNo),
    /// The second page is rebuilt, and nothing is written.
    Rebuild,
}

/// What is tried.
#[derive(Clone, Copy, Debug)]
struct Case {
    step: Step,
    tells: Tells,
    /// Whether a backup has both pages.
    has_backup: bool,
    /// Whether a run has what the log has forgotten.
    has_runs: bool,
}

/// What a step answers.
#[derive(Clone, Copy, Debug, PartialEq, Eq)]
enum Answer {
    Done,
    Memory,
    LogBad { block: u64, byte: u64 },
    Other,
}

/// What came of it.
#[derive(Clone, Copy, Debug, PartialEq, Eq)]
struct Seen {
    answer: Answer,
    /// How often it was entered that a segment is restored, and the last one.
    entered: u32,
    segment: Option<u32>,
    /// The LSN of the image of each page, where that has the page's rows at its head.
    images: [Option<Lsn>; 2],
    /// How many records were asked for.
    reads: u32,
    /// The last LSN up to which the log was flushed.
    flushed: Lsn,
}

/// The images of both pages on the device.
fn images_on(alloc: Global, device: &mut MemPages) -> [Option<Lsn>; 2] {
    let mut first = [0; 4096];
    let mut second = [0; 4096];
    let _read = device.read(1, &mut first);
    let _read = device.read(2, &mut second);
    [
        image_lsn(alloc, &first, 1, FIRST),
        image_lsn(alloc, &second, 2, SECOND),
    ]
}

fn cause_of(fault: Fault) -> Answer {
    match fault {
        Fault::Memory => Answer::Memory,
        Fault::LogBad { block, byte } => Answer::LogBad { block, byte },
        _ => Answer::Other,
    }
}

/// What the step answers, by a supply from the log with these bases.
fn answer_of<N: Life, J: Entering<N>, I: Images<N>, B: Bases<N, J> + Drop, R: Wait>(
    rt: &R,
    alloc: Global,
    bases: B,
    journal: &mut J,
    images: &mut I,
    pass: &mut Pass<Entry, N>,
    step: Step,
) -> Result<Answer, Memory>
    requires untold { (opening : List Record) → N.opens opening → ⊥ }
{
    let operators = boxed_operators!(alloc);
    let mut supply = LogSupply {
        operators: &operators,
        bases,
    };
    match step {
        Step::Ready(page) => {
            if let Err(fault) = supply.ready(rt, alloc, journal, images, page, pass) {
                return Ok(cause_of(fault));
            }
            match supply.ready(rt, alloc, journal, images, page, pass) {
                Ok(()) => Ok(Answer::Done),
                Err(fault) => Ok(cause_of(fault)),
            }
        }
        Step::Rebuild => match supply.rebuilt(rt, alloc, journal, 2, None, 5, pass) {
            Ok(sealed) => Ok(if sealed.lsn == 5 && is_state(alloc, &sealed.state, SECOND) {
                Answer::Done
            } else {
                Answer::Other
            }),
            Err(fault) => Ok(cause_of(fault)),
        },
    }
}

/// What comes of one step.
fn come_of<N: Life, R: Wait>(
    rt: &R,
    alloc: Global,
    bases: BehindSplit,
    begun: Begun<N>,
    step: Step,
) -> Result<Seen, Memory>
    requires untold { (opening : List Record) → N.opens opening → ⊥ }
{
    let Begun {
        mut journal,
        mut images,
        mut pass,
    } = begun;
    let answer = answer_of(rt, alloc, bases, &mut journal, &mut images, &mut pass, step)?;
    let mut device = images.into_device(&mut pass);
    Ok(Seen {
        answer,
        entered: journal.asked.entered,
        segment: journal.asked.segment,
        images: images_on(alloc, &mut device),
        reads: journal.asked.reads,
        flushed: journal.asked.flushed,
    })
}

fn life<N: Life, R: Wait>(
    rt: &R,
    alloc: Global,
    unnamed: Unnamed,
    device: MemPages,
    case: Case,
) -> Result<Seen, Memory>
    requires untold { (opening : List Record) → N.opens opening → ⊥ }
    requires named { unnamed ≡ life_names N.count N.pages N.sessions N.maint N.entries N.session_entries N.log_faults N.vault_faults N.data_faults N.made }
    requires parts { (N.entries.parts ≡ 1) × (N.session_entries.parts ≡ 1) × (N.log_faults.parts ≡ 1) × (N.vault_faults.parts ≡ 1) × (N.made.parts ≡ 1) }
{
    let bases = BehindSplit {
        has_both: case.has_backup,
        has_runs: case.has_runs,
    };
    let (ground, tokens) = unnamed.split::<N>();
    let begun = begin(&ground, tokens, device, case.tells);
    come_of(rt, alloc, bases, begun, case.step)
}

/// What came of it, over this device.
fn run_with<R: Wait>(rt: &R, alloc: Global, device: MemPages, case: Case) -> Result<Seen, Memory> {
    let unnamed = Unnamed::new(alloc, 1)?;
    life::<Brand, R>(rt, alloc, unnamed, device, case)
}

/// A device that has an image of the second page at a later LSN.
fn device_with_later(alloc: Global) -> Result<MemPages, Fail> {
    let mut device = MemPages::new(alloc);
    match state_of(alloc, SECOND) {
        Some(state) => {
            let image = seal(&state, 2, LATER);
            let _written = device.write(2, &image);
            Ok(device)
        }
        None => Err(Fail::new("no state")),
    }
}

/// An LSN behind the log.
const LATER: Lsn = 7;

/// Both pages come back, rebuilt from nothing.
const BACK: Seen = Seen {
    answer: Answer::Done,
    entered: 1,
    segment: Some(0),
    images: [Some(4), Some(5)],
    reads: 6,
    flushed: 5,
};

/// Nothing comes back.
const LACKING: Seen = Seen {
    answer: Answer::Memory,
    entered: 0,
    segment: None,
    images: [None; 2],
    reads: 0,
    flushed: 0,
};

/// The first page alone comes back.
const FIRST_ALONE: Seen = Seen {
    images: [Some(4), None],
    reads: 4,
    flushed: 4,
    ..LACKING
};

/// The second page alone is rebuilt.
const REBUILT: Seen = Seen {
    answer: Answer::Done,
    reads: 2,
    ..LACKING
};

/// Both pages are made ready, where two pages were lost and the log has all its records.
const READY: Case = Case {
    step: Step::Ready(2),
    tells: Tells {
        lost: 2,
        forgotten: 0,
        bad: 0,
        refuse_at: 0,
    },
    has_backup: false,
    has_runs: false,
};

fn forgetting(forgotten: Lsn) -> Tells {
    Tells {
        forgotten,
        ..READY.tells
    }
}

#[test]
fn a_lost_segment_comes_back_page_by_page(rt: HostRuntime) -> Result<(), Fail> {
    let alloc = rt.alloc();
    let rebuild = Case {
        step: Step::Rebuild,
        ..READY
    };
    for (case, expected) in [
        (READY, BACK),
        // No page of the second segment was lost.
        (
            Case {
                step: Step::Ready(17),
                ..READY
            },
            Seen {
                answer: Answer::Done,
                entered: 1,
                segment: Some(1),
                ..LACKING
            },
        ),
        // The log has forgotten a record that is wanted, or one that a backup makes needless.
        (
            Case {
                tells: forgetting(2),
                ..READY
            },
            Seen {
                reads: 3,
                ..LACKING
            },
        ),
        (
            Case {
                tells: forgetting(4),
                has_backup: true,
                ..READY
            },
            Seen { reads: 1, ..BACK },
        ),
        // Runs have it: the first records, or all.
        (
            Case {
                tells: forgetting(2),
                has_runs: true,
                ..READY
            },
            BACK,
        ),
        (
            Case {
                tells: forgetting(5),
                has_runs: true,
                ..READY
            },
            BACK,
        ),
        (
            Case {
                tells: forgetting(4),
                has_runs: true,
                ..rebuild
            },
            REBUILT,
        ),
        (rebuild, REBUILT),
        (
            Case {
                tells: forgetting(4),
                has_backup: true,
                ..rebuild
            },
            Seen {
                reads: 1,
                ..REBUILT
            },
        ),
    ] {
        let found = run_with(&rt, alloc, MemPages::new(alloc), case)?;
        assert_eq!(rt; found, expected, "{case:?}");
    }
    Ok(())
}

/// Two pages were lost, or the first alone, and the second came since.
#[test]
fn a_page_that_came_later_keeps_its_image(rt: HostRuntime) -> Result<(), Fail> {
    let alloc = rt.alloc();
    let since = Seen {
        answer: Answer::Done,
        entered: 1,
        segment: Some(0),
        images: [Some(4), Some(LATER)],
        ..FIRST_ALONE
    };
    for (lost, expected) in [(1, since), (2, BACK)] {
        let tells = Tells {
            lost,
            ..READY.tells
        };
        let device = device_with_later(alloc)?;
        let found = run_with(&rt, alloc, device, Case { tells, ..READY })?;
        assert_eq!(rt; found, expected, "{lost}");
    }
    Ok(())
}

/// The calls that may want memory are: the page is listed; the first page is listed, and its four records are read; the second
/// is listed, and its two records; the entry; and the second time, the page is listed.
#[test]
fn a_segment_is_restored_once_its_last_page_is_written(rt: HostRuntime) -> Result<(), Fail> {
    let alloc = rt.alloc();
    let unmarked = Seen {
        answer: Answer::Memory,
        entered: 0,
        segment: None,
        ..BACK
    };
    let marked = Seen {
        answer: Answer::Memory,
        ..BACK
    };
    for (refuse_at, expected) in [
        (1, LACKING),
        (2, LACKING),
        (
            3,
            Seen {
                reads: 1,
                ..LACKING
            },
        ),
        (
            6,
            Seen {
                reads: 4,
                ..LACKING
            },
        ),
        (7, FIRST_ALONE),
        (
            9,
            Seen {
                reads: 6,
                ..FIRST_ALONE
            },
        ),
        (10, unmarked),
        (11, marked),
        (12, BACK),
    ] {
        let tells = Tells {
            refuse_at,
            ..READY.tells
        };
        let found = run_with(&rt, alloc, MemPages::new(alloc), Case { tells, ..READY })?;
        assert_eq!(rt; found, expected, "{refuse_at}");
    }
    Ok(())
}

#[test]
fn a_bad_block_of_the_log_is_named(rt: HostRuntime) -> Result<(), Fail> {
    let alloc = rt.alloc();
    let tells = Tells {
        bad: 5,
        ..READY.tells
    };
    let expected = Seen {
        answer: Answer::LogBad { block: 3, byte: 17 },
        reads: 5,
        ..FIRST_ALONE
    };
    let found = run_with(&rt, alloc, MemPages::new(alloc), Case { tells, ..READY })?;
    assert_eq!(rt; found, expected);
    Ok(())
}

/// The first call of the device writes the first page, the second the other one. What it doesn't take is repaired when it is
/// brought.
#[test]
fn a_device_that_fails_does_not_hold_the_segment_up(rt: HostRuntime) -> Result<(), Fail> {
    let alloc = rt.alloc();
    for (failing, images) in [
        ([1, 1], [None, Some(5)]),
        ([2, 2], [Some(4), None]),
        ([1, 2], [None; 2]),
    ] {
        let device = MemPages::failing(alloc, Vec::from_array(alloc, failing)?);
        let found = run_with(&rt, alloc, device, READY)?;
        assert_eq!(rt; found, Seen { images, ..BACK });
    }
    Ok(())
}
