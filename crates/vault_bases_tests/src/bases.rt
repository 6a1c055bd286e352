//! Which image is given.
ghost use Rattle.std.specs.Prelude.{◌≡◌, List, []};
ghost use Rattle.page_ops.specs.Names.{life_names};
ghost use Rattle.wal_record.specs.declared.record.Record.{Record};

use crate::life::{Begun, begin};
use crate::objects::{BACKUP, name, object, vault_with};
use crate::telling::Telling;
use media::Fuse;
use media_mem::MemVault;
use page_ops::{Ground, Life, Tokens, Unnamed};
use segment_restore::{Base, Bases};
use std::alloc::Global;
use std::marker::Brand;
use std::sync::Wait;
use std::test::Fail;
use store_model::{Fault, Lsn, Memory, PageNo};

/// What is given.
#[derive(Clone, Copy, Debug, PartialEq, Eq)]
enum Answer {
    Nothing,
    At(Lsn),
    BadAt(u64),
    VaultFault,
    Other,
}

/// What is told of the page's last backup, and what is asked.
#[derive(Clone, Copy)]
struct Case {
    backup: u64,
    lsn: Lsn,
    page: PageNo,
    head: Lsn,
}

fn answer_of(found: Result<Option<Base>, Fault>) -> Answer {
    match found {
        Ok(None) => Answer::Nothing,
        Ok(Some(base)) => Answer::At(base.sealed.lsn),
        Err(Fault::VaultBad { object, byte }) => if object == name() {
            Answer::BadAt(byte)
        } else {
            Answer::Other
        },
        Err(Fault::VaultFault) => Answer::VaultFault,
        Err(_) => Answer::Other,
    }
}

/// What is given, and how many faults were counted.
fn asked<N: Life, R: Wait>(
    rt: &R,
    alloc: Global,
    ground: &Ground<N>,
    tokens: Tokens<N>,
    vault: Fuse<MemVault>,
    case: Case,
) -> (Answer, u64)
    requires untold { (opening : List Record) → N.opens opening → ⊥ }
    requires parts { (N.entries.parts ≡ 2) × (N.session_entries.parts ≡ 2) × (N.log_faults.parts ≡ 2) × (N.vault_faults.parts ≡ 2) × (N.made.parts ≡ 2) }
    requires front { tokens.front ≡ [] }
    requires pass { tokens.pass.log ≡ [] }
    requires pages { tokens.books.pages ≡ [] }
    requires sessions { tokens.books.sessions ≡ [] }
    requires maint { tokens.books.maint ≡ [] }
{
    let Begun {
        mut journal,
        mut bases,
        mut pass,
    } = begin(ground, tokens, vault, case.backup, case.lsn, 0);
    let found = bases.base(rt, alloc, &mut journal, case.page, case.head, &mut pass);
    let faults = Bases::<N, Telling<N>>::vault_faults(&bases);
    (answer_of(found), faults)
}

fn life<N: Life, R: Wait>(
    rt: &R,
    alloc: Global,
    unnamed: Unnamed,
    vault: Fuse<MemVault>,
    case: Case,
) -> (Answer, u64)
    requires untold { (opening : List Record) → N.opens opening → ⊥ }
    requires named { unnamed ≡ life_names N.count N.pages N.sessions N.maint N.entries N.session_entries N.log_faults N.vault_faults N.data_faults N.made }
    requires parts { (N.entries.parts ≡ 2) × (N.session_entries.parts ≡ 2) × (N.log_faults.parts ≡ 2) × (N.vault_faults.parts ≡ 2) × (N.made.parts ≡ 2) }
{
    let (ground, tokens) = unnamed.split::<N>();
    asked(rt, alloc, &ground, tokens, vault, case)
}

fn told<R: Wait>(
    rt: &R,
    alloc: Global,
    vault: Fuse<MemVault>,
    case: Case,
) -> Result<(Answer, u64), Memory> {
    let unnamed = Unnamed::new(alloc, 2)?;
    Ok(life::<Brand, R>(rt, alloc, unnamed, vault, case))
}

/// What is given of an object with these bytes, and how many faults were counted, where so many calls of the vault pass.
fn given<R: Wait>(
    rt: &R,
    alloc: Global,
    bytes: &[u8],
    calls: Option<u64>,
    case: Case,
) -> Result<(Answer, u64), Fail> {
    match vault_with(alloc, name(), bytes, calls) {
        Some(vault) => Ok(told(rt, alloc, vault, case)?),
        None => Err(Fail::new("no vault")),
    }
}

fn object_of(alloc: Global, has: u32) -> Result<Vec<u8>, Fail> {
    match object(alloc, has, 5) {
        Some(bytes) => Ok(bytes),
        None => Err(Fail::new("no object")),
    }
}

/// The page at its head, which is that of the backup.
fn page_at_head(page: PageNo) -> Case {
    Case {
        backup: BACKUP,
        lsn: 5,
        page,
        head: 5,
    }
}

#[test]
fn a_page_is_found_wherever_its_image_stands(rt: HostRuntime) -> Result<(), Fail> {
    let alloc = rt.alloc();
    for (has, page, expected) in [
        // The whole segment.
        (0xffff, 1, Answer::At(5)),
        (0xffff, 16, Answer::At(5)),
        // Its first pages.
        (0b0111, 3, Answer::At(5)),
        // Pages are lacking before this one: behind them there is no image, or another page's.
        (0b0101, 3, Answer::At(5)),
        (0b0110, 2, Answer::At(5)),
        (0b1010_0000_0000_0000, 16, Answer::At(5)),
        // The page itself is lacking.
        (0b0101, 2, Answer::BadAt(16)),
        (0b0111, 4, Answer::BadAt(16)),
    ] {
        let bytes = object_of(alloc, has)?;
        let (answer, faults) = given(&rt, alloc, &bytes, None, page_at_head(page))?;
        assert_eq!(rt; (answer, faults), (expected, 0), "page {page} of {has}");
    }
    Ok(())
}

#[test]
fn an_image_serves_up_to_the_head(rt: HostRuntime) -> Result<(), Fail> {
    let alloc = rt.alloc();
    let bytes = object_of(alloc, 0b0001)?;
    for (backup, lsn, head, expected) in [
        (BACKUP, 5, 5, Answer::At(5)),
        (BACKUP, 5, 9, Answer::At(5)),
        // No backup, or a younger one.
        (0, 0, 9, Answer::Nothing),
        (BACKUP, 5, 4, Answer::Nothing),
        // The image has another LSN than is told.
        (BACKUP, 6, 9, Answer::BadAt(0)),
        (BACKUP, 4, 9, Answer::BadAt(0)),
    ] {
        let case = Case {
            backup,
            lsn,
            page: 1,
            head,
        };
        let (answer, faults) = given(&rt, alloc, &bytes, None, case)?;
        assert_eq!(rt; (answer, faults), (expected, 0), "{lsn} up to {head}");
    }
    Ok(())
}

#[test]
fn a_bad_object_is_named_at_its_first_fault(rt: HostRuntime) -> Result<(), Fail> {
    let alloc = rt.alloc();
    let whole = object_of(alloc, 0b0001)?;
    for (at, expected) in [
        (0, Answer::BadAt(0)),
        (11, Answer::BadAt(4)),
        (15, Answer::BadAt(12)),
        // A count of 2, which is none of the page's matters.
        (19, Answer::At(5)),
        (20, Answer::BadAt(20)),
        (52, Answer::BadAt(20)),
        (4115, Answer::BadAt(20)),
    ] {
        let mut bytes = whole.as_slice().to_vec(alloc)?;
        if let Some(byte) = bytes.get_mut(at) {
            *byte = byte.wrapping_add(1);
        }
        let (answer, faults) = given(&rt, alloc, &bytes, None, page_at_head(1))?;
        assert_eq!(rt; (answer, faults), (expected, 0), "changed at {at}");
    }
    for (len, expected) in [
        (0, Answer::BadAt(0)),
        (4, Answer::BadAt(4)),
        (19, Answer::BadAt(16)),
        (20, Answer::BadAt(20)),
        (4115, Answer::BadAt(20)),
    ] {
        let (front, _) = whole.as_slice().split_at(whole.len().min(len));
        let (answer, faults) = given(&rt, alloc, front, None, page_at_head(1))?;
        assert_eq!(rt; (answer, faults), (expected, 0), "cut to {len}");
    }
    Ok(())
}

/// The head and the image in its place are two calls, and the whole object is the third.
#[test]
fn each_fault_of_the_vault_is_counted(rt: HostRuntime) -> Result<(), Fail> {
    let alloc = rt.alloc();
    for (has, page, calls) in [(0b0111, 3, 2), (0b0101, 3, 3)] {
        let bytes = object_of(alloc, has)?;
        for passed in 0..calls {
            let (answer, faults) = given(&rt, alloc, &bytes, Some(passed), page_at_head(page))?;
            assert_eq!(rt; (answer, faults), (Answer::VaultFault, 1), "{passed}");
        }
        let (answer, faults) = given(&rt, alloc, &bytes, Some(calls), page_at_head(page))?;
        assert_eq!(rt; (answer, faults), (Answer::At(5), 0), "{calls}");
    }
    Ok(())
}
