//! Which record is taken from an archive run, and pages that are rebuilt from one.
ghost use Rattle.std.specs.Prelude.{◌≡◌, List, []};
ghost use Rattle.page_ops.specs.Names.{life_names};
ghost use Rattle.wal_record.specs.State.{KeepsState};
ghost use Rattle.wal_record.specs.declared.record.Record.{Record};

use crate::life::{Begun, begin};
use crate::objects::{RUN, vault_with};
use media::Fuse;
use media_mem::MemVault;
use operators::boxed_operators;
use page_image::Sealed;
use page_ops::{Ground, Life, Tokens, Unnamed};
use segment_restore::{Bases, rebuild_in_life};
use state_codec::put_state;
use std::alloc::Global;
use std::marker::Brand;
use std::sync::Wait;
use std::test::Fail;
use store_model::{Fault, Lsn, Memory, ObjectKind, ObjectName, PageNo};
use wal_record::{PageState, Record, Run};

/// The run of the LSNs 1 to 4, field by field.
const OBJECT: [&str; 8] = [
    // The letters, the run, its first and its last LSN, and two pages.
    "52554e31 0000000000000005 0000000000000001 0000000000000004 00000002",
    // Each page with its count and the place of its first item.
    "00000001 00000004 0000000000000040",
    "00000002 00000001 00000000000000db",
    // On page 1: the Format, two writes, and the Split that makes page 2.
    "0000000000000001 00000005 01 00000064",
    "0000000000000002 00000024 02 0000000000000001 0000000000000000 00000001 0000000000000001 0161 00 01000131",
    "0000000000000003 00000024 02 0000000000000001 0000000000000002 00000001 0000000000000002 0162 00 01000132",
    "0000000000000004 0000001e 07 00000001 0000000000000003 00000002 00 0162 00 00 0001 0162 00 000132",
    // On page 2: that Split.
    "0000000000000004 0000001e 07 00000001 0000000000000003 00000002 00 0162 00 00 0001 0162 00 000132",
];

/// The pages behind the Split.
const PAGES: [&str; 2] = [
    "00 00 00 01 0162 00000002 0001 0161 00 000131",
    "00 0162 00 00 0001 0162 00 000132",
];

/// What is asked: a page's record with an LSN, or the page as it was at one.
#[derive(Clone, Copy)]
enum Step {
    Take(PageNo, Lsn),
    Rebuild(PageNo, Lsn),
}

/// What is answered.
#[derive(Clone, Copy, Debug, PartialEq, Eq)]
enum Answer {
    /// A Format with this limit.
    Format(u32),
    /// A write of this page, behind this one.
    Write(PageNo, Lsn),
    /// A Split that makes this page.
    Split(PageNo),
    /// The page behind the Split.
    Rebuilt,
    BadAt(u64),
    VaultFault,
    Other,
}

fn name() -> ObjectName {
    ObjectName {
        kind: ObjectKind::Run,
        id: RUN,
        part: 0,
    }
}

fn cause_of(fault: Fault) -> Answer {
    match fault {
        Fault::VaultBad { object, byte } => if object == name() {
            Answer::BadAt(byte)
        } else {
            Answer::Other
        },
        Fault::VaultFault => Answer::VaultFault,
        _ => Answer::Other,
    }
}

fn kind_of(taken: Result<Record, Fault>) -> Answer {
    match taken {
        Ok(Record::Format(format)) => Answer::Format(format.limit),
        Ok(Record::Write(write)) => Answer::Write(write.page, write.page_prev),
        Ok(Record::Split(split)) => Answer::Split(split.child),
        Ok(_) => Answer::Other,
        Err(fault) => cause_of(fault),
    }
}

fn put_hex(out: &mut Vec<u8>, alloc: Global, text: &str) -> Option<()> {
    for word in text.split_whitespace() {
        out.extend_from_slice(&hex::decode(alloc, word).ok()?).ok()?;
    }
    Some(())
}

fn object(alloc: Global) -> Result<Vec<u8>, Fail> {
    let mut bytes = Vec::new(alloc);
    for text in OBJECT {
        if put_hex(&mut bytes, alloc, text).is_none() {
            return Err(Fail::new("no object"));
        }
    }
    Ok(bytes)
}

/// Whether this is the page's state behind the Split.
fn is_behind_split(alloc: Global, page: PageNo, state: &PageState) -> bool
    requires { KeepsState state.now }
{
    let Some(text) = PAGES.get((page as usize).saturating_sub(1)) else {
        return false;
    };
    let mut wanted = Vec::new(alloc);
    let mut out = Vec::new(alloc);
    put_hex(&mut wanted, alloc, text).is_some()
        && put_state(&mut out, state).is_ok()
        && out.as_slice() == wanted.as_slice()
}

/// What is answered, and how many faults were counted.
fn asked<N: Life, R: Wait>(
    rt: &R,
    alloc: Global,
    ground: &Ground<N>,
    tokens: Tokens<N>,
    vault: Fuse<MemVault>,
    step: Step,
) -> Result<(Answer, u64), Memory>
    requires untold { (opening : List Record) → N.opens opening → ⊥ }
    requires parts { (N.entries.parts ≡ 2) × (N.session_entries.parts ≡ 2) × (N.log_faults.parts ≡ 2) × (N.vault_faults.parts ≡ 2) × (N.made.parts ≡ 2) }
    requires front { tokens.front ≡ [] }
    requires pass { tokens.pass.log ≡ [] }
    requires pages { tokens.books.pages ≡ [] }
    requires sessions { tokens.books.sessions ≡ [] }
    requires maint { tokens.books.maint ≡ [] }
{
    let operators = boxed_operators!(alloc);
    let Begun {
        mut journal,
        mut bases,
        mut pass,
    } = begin(ground, tokens, vault, 0, 0, 4);
    let answer = match step {
        Step::Take(page, lsn) => {
            let run = Run {
                run: RUN,
                first: 1,
                last: 4,
            };
            kind_of(bases.archived(rt, alloc, &mut journal, run, page, lsn, &mut pass))
        }
        Step::Rebuild(page, head) => {
            match rebuild_in_life(
                rt,
                alloc,
                &mut journal,
                &mut bases,
                page,
                None,
                head,
                &operators,
                &mut pass,
            ) {
                Ok(Sealed { state, lsn }) => if lsn == head
                    && is_behind_split(alloc, page, &state)
                {
                    Answer::Rebuilt
                } else {
                    Answer::Other
                },
                Err(fault) => cause_of(fault),
            }
        }
    };
    let told = bases.faults.told();
    Ok((answer, told))
}

fn life<N: Life, R: Wait>(
    rt: &R,
    alloc: Global,
    unnamed: Unnamed,
    vault: Fuse<MemVault>,
    step: Step,
) -> Result<(Answer, u64), Memory>
    requires untold { (opening : List Record) → N.opens opening → ⊥ }
    requires named { unnamed ≡ life_names N.count N.pages N.sessions N.maint N.entries N.session_entries N.log_faults N.vault_faults N.data_faults N.made }
    requires parts { (N.entries.parts ≡ 2) × (N.session_entries.parts ≡ 2) × (N.log_faults.parts ≡ 2) × (N.vault_faults.parts ≡ 2) × (N.made.parts ≡ 2) }
{
    let (ground, tokens) = unnamed.split::<N>();
    asked(rt, alloc, &ground, tokens, vault, step)
}

fn told<R: Wait>(
    rt: &R,
    alloc: Global,
    vault: Fuse<MemVault>,
    step: Step,
) -> Result<(Answer, u64), Memory> {
    let unnamed = Unnamed::new(alloc, 2)?;
    life::<Brand, R>(rt, alloc, unnamed, vault, step)
}

/// What is answered of a run with these bytes, and how many faults were counted, where so many calls of the vault pass.
fn given<R: Wait>(
    rt: &R,
    alloc: Global,
    bytes: &[u8],
    calls: Option<u64>,
    step: Step,
) -> Result<(Answer, u64), Fail> {
    match vault_with(alloc, name(), bytes, calls) {
        Some(vault) => Ok(told(rt, alloc, vault, step)?),
        None => Err(Fail::new("no vault")),
    }
}

#[test]
fn the_record_with_the_lsn_is_taken(rt: HostRuntime) -> Result<(), Fail> {
    let alloc = rt.alloc();
    let bytes = object(alloc)?;
    for (page, lsn, expected) in [
        (1, 1, Answer::Format(100)),
        (1, 2, Answer::Write(1, 1)),
        (1, 3, Answer::Write(1, 2)),
        (1, 4, Answer::Split(2)),
        (2, 4, Answer::Split(2)),
        // The page's next record has another LSN.
        (2, 3, Answer::BadAt(0)),
        // It has none from there on, or the run lacks the page.
        (1, 5, Answer::BadAt(28)),
        (3, 1, Answer::BadAt(28)),
    ] {
        let (answer, faults) = given(&rt, alloc, &bytes, None, Step::Take(page, lsn))?;
        assert_eq!(rt; (answer, faults), (expected, 0), "page {page} at {lsn}");
    }
    Ok(())
}

#[test]
fn a_bad_run_is_named_at_its_first_fault(rt: HostRuntime) -> Result<(), Fail> {
    let alloc = rt.alloc();
    let whole = object(alloc)?;
    for (at, expected) in [
        (0, Answer::BadAt(0)),
        (11, Answer::BadAt(4)),
        // A third page is told, and the first item's LSN is read in its place.
        (31, Answer::BadAt(64)),
        (47, Answer::BadAt(40)),
        // The first item has the LSN of the second.
        (71, Answer::BadAt(81)),
        (75, Answer::BadAt(72)),
        // Another limit, which keeps the rules.
        (80, Answer::Format(101)),
    ] {
        let mut bytes = whole.as_slice().to_vec(alloc)?;
        if let Some(byte) = bytes.get_mut(at) {
            *byte = byte.wrapping_add(1);
        }
        let (answer, faults) = given(&rt, alloc, &bytes, None, Step::Take(1, 1))?;
        assert_eq!(rt; (answer, faults), (expected, 0), "changed at {at}");
    }
    for (len, expected) in [
        (0, Answer::BadAt(0)),
        (31, Answer::BadAt(28)),
        (64, Answer::BadAt(64)),
        // The last field of the last record is cut.
        (260, Answer::BadAt(258)),
    ] {
        let (front, _) = whole.as_slice().split_at(whole.len().min(len));
        let (answer, faults) = given(&rt, alloc, front, None, Step::Take(1, 1))?;
        assert_eq!(rt; (answer, faults), (expected, 0), "cut to {len}");
    }
    Ok(())
}

/// Page 1 has four records, each of which is one call of the vault; page 2 has one.
#[test]
fn a_page_is_rebuilt_from_a_run(rt: HostRuntime) -> Result<(), Fail> {
    let alloc = rt.alloc();
    let bytes = object(alloc)?;
    for (page, calls) in [(1, 4), (2, 1)] {
        for passed in 0..calls {
            let (answer, faults) = given(&rt, alloc, &bytes, Some(passed), Step::Rebuild(page, 4))?;
            assert_eq!(rt;
                (answer, faults),
                (Answer::VaultFault, 1),
                "{page} {passed}"
            );
        }
        let (answer, faults) = given(&rt, alloc, &bytes, Some(calls), Step::Rebuild(page, 4))?;
        assert_eq!(rt; (answer, faults), (Answer::Rebuilt, 0), "{page}");
    }
    Ok(())
}
