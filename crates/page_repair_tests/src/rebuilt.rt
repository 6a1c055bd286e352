//! Pages rebuilt, and why not.
ghost use Rattle.std.specs.Prelude.{◌≡◌, ◌≤◌, ◌<◌, List, IfOk, IfSome};
ghost use Rattle.wal_record.specs.State.{KeepsState};
ghost use Rattle.wal_record.specs.declared.record.Record.{Record};

use crate::spelled::{bytes_of, state_of};
use crate::table::{Table, records_of};
use operators::{Operators, boxed_operators};
use page_image::{Sealed, open_page, seal};
use page_repair::{Chain, rebuild};
use state_codec::put_state;
use std::alloc::Global;
use std::marker::Brand;
use std::sync::Wait;
use std::sync::ledger::{Blank, Ledger};
use std::test::Fail;
use store_model::{Fault, Lsn, PageNo};

/// What is rebuilt.
#[derive(Clone, Copy)]
pub struct Wanted {
    pub page: PageNo,
    pub head: Lsn,
}

/// The base of a row: `none`, or an LSN and the state of the page there, which goes through an image.
fn base_of(alloc: Global, text: &str, wanted: Wanted) -> Option<Option<Sealed>>
    ensures { IfSome result (λ base. IfSome base (λ x. (x.lsn ≤ wanted.head) × KeepsState x.state)) }
{
    if text == "none" {
        return Some(None);
    }
    let (lsn, state) = text.split_once(' ')?;
    let state = state_of(alloc, state)?;
    let bytes = seal(&state, wanted.page, lsn.parse::<u64>().ok()?);
    let sealed = open_page(alloc, &bytes, wanted.page).ok()?;
    if wanted.head < sealed.lsn {
        return None;
    }
    Some(Some(sealed))
}

/// The page over a chain that answers by no log.
fn rebuilt<C: Chain, R: Wait>(
    rt: &R,
    alloc: Global,
    chain: &mut C,
    base: Option<Sealed>,
    wanted: Wanted,
    operators: &Operators,
) -> Result<Sealed, Fault>
    requires untold { (log : List Record) → C.answers chain.old log → ⊥ }
    requires base { IfSome base (λ x. (x.lsn ≤ wanted.head) × KeepsState x.state) }
    ensures { IfOk result (λ x. KeepsState x.state) }
{
    rebuild(rt, alloc, wanted.page, base, wanted.head, chain, operators)
}

/// Whether a page or a fault is what the text says.
pub fn is_answer(alloc: Global, found: Result<Sealed, Fault>, head: Lsn, text: &str) -> Option<bool>
    requires { IfOk found (λ x. KeepsState x.state) }
{
    match found {
        Ok(sealed) => {
            let mut out = Vec::new(alloc);
            put_state(&mut out, &sealed.state).ok()?;
            let wanted = bytes_of(alloc, text)?;
            Some(sealed.lsn == head && out.as_slice() == wanted.as_slice())
        }
        Err(Fault::LogBad { block: 0, byte }) => {
            let (_, wanted) = text.split_once("bad at ")?;
            Some(wanted.parse::<u64>().ok()? == byte)
        }
        Err(_) => Some(false),
    }
}

/// The page over these records, and how many of them were asked for.
fn counted<L: Ledger, R: Wait>(
    rt: &R,
    alloc: Global,
    blank: Blank,
    records: Vec<Vec<u8>>,
    base: Option<Sealed>,
    wanted: Wanted,
    operators: &Operators,
) -> (Result<Sealed, Fault>, u64)
    requires name { blank.name ≡ L.name }
    requires parts { (blank.parts ≡ L.parts) × (0 < L.parts) }
    requires base { IfSome base (λ x. (x.lsn ≤ wanted.head) × KeepsState x.state) }
    ensures { IfOk result.0 (λ x. KeepsState x.state) }
{
    let mut chain = Table::<L>::new(blank, records);
    let found = rebuilt(rt, alloc, &mut chain, base, wanted, operators);
    (found, chain.calls())
}

/// The same, by a count of its own.
pub fn over<R: Wait>(
    rt: &R,
    alloc: Global,
    records: Vec<Vec<u8>>,
    base: Option<Sealed>,
    wanted: Wanted,
    operators: &Operators,
) -> (Result<Sealed, Fault>, u64)
    requires base { IfSome base (λ x. (x.lsn ≤ wanted.head) × KeepsState x.state) }
    ensures { IfOk result.0 (λ x. KeepsState x.state) }
{
    counted::<Brand, R>(rt, alloc, Blank::new(1), records, base, wanted, operators)
}

/// Whether a row comes true over these records: a name, the page, the base, the head, how many records are asked for, and
/// the page's state or where the chain is bad.
fn comes_true<R: Wait>(
    rt: &R,
    alloc: Global,
    operators: &Operators,
    records: &str,
    row: &str,
) -> Option<bool> {
    let (page, row) = row.split_once("; ")?;
    let (base, row) = row.split_once("; ")?;
    let (head, row) = row.split_once("; ")?;
    let (calls, answer) = row.split_once("; ")?;
    let calls = calls.parse::<u64>().ok()?;
    let wanted = Wanted {
        page: page.parse::<u32>().ok()?,
        head: head.parse::<u64>().ok()?,
    };
    let base = base_of(alloc, base, wanted)?;
    let records = records_of(alloc, records)?;
    let (found, asked) = over(rt, alloc, records, base, wanted, operators);
    Some(asked == calls && is_answer(alloc, found, wanted.head, answer)?)
}

/// A log of three pages, each record with its LSN as its place: page 1 is split into page 2, grows over page 3, and takes
/// page 2 as its child.
pub const LOG: &str = "\
Format 4.100 \
/ Write 8.1 8.0 4.1 8.1 0161 00 01000131 / Write 8.1 8.2 4.1 8.2 0162 00 01000132 / Commit 8.1 8.3 \
/ Split 4.1 8.3 4.2 00 0162 00 00 0001 0162 00 000132 / Write 8.2 8.0 4.2 8.5 0163 00 01000133 \
/ Write 8.2 8.6 4.1 8.5 0161 01000131 01000134 / Undo 8.2 8.7 4.1 8.7 0161 01000131 8.6 \
/ Grow 8.8 4.3 00 00 00 01 0162 4.2 0001 0161 00 000131 / Adopt 4.1 8.9 4.3 8.9 4.2 0162 \
/ Write 8.2 8.8 4.2 8.6 0162 01000132 00 / Purge 4.2 8.11";

/// Rows over that log.
const PAGES: &str = "\
a leaf with two rows; 1; none; 3; 3; 00 00 00 00 0002 0161 00 000131 0162 00 000132
a page that is split off is made by its Split; 2; none; 5; 1; 00 0162 00 00 0001 0162 00 000132
the lower half, whose write is undone; 1; none; 8; 6; 00 00 00 01 0162 4.2 0001 0161 00 000131
a tombstone; 2; none; 11; 3; 00 0162 00 00 0002 0162 01 0000 0163 00 000133
a purged leaf; 2; none; 12; 4; 00 0162 00 00 0001 0163 00 000133
a page that a Grow makes gives up its foster child; 3; none; 10; 2; 00 00 01 0162 00 0001 0161 00 000131
a root with two children; 1; none; 10; 8; 01 00 00 00 0002 00 4.3 0162 4.2
an older image; 1; 3 00 00 00 00 0002 0161 00 000131 0162 00 000132; 8; 3; 00 00 00 01 0162 4.2 0001 0161 00 000131
an image right before the head; 1; 7 00 00 00 01 0162 4.2 0001 0161 00 000134; 8; 1; 00 00 00 01 0162 4.2 0001 0161 00 000131
an image at the head; 1; 8 00 00 00 01 0162 4.2 0001 0161 00 000131; 8; 0; 00 00 00 01 0162 4.2 0001 0161 00 000131
an older image of the second page; 2; 5 00 0162 00 00 0001 0162 00 000132; 12; 3; 00 0162 00 00 0001 0163 00 000133
";

/// Rows with logs of their own, behind a bar.
const FAULTS: &str = "\
a record that names itself; 1; none; 2; 1; bad at 0 | Format 4.100 / Write 8.1 8.0 4.1 8.2 0161 00 01000131
a record that names a later one; 1; none; 2; 1; bad at 0 | Format 4.100 / Write 8.1 8.0 4.1 8.3 0161 00 01000131 / Purge 4.1 8.1
a record that is come to twice; 1; none; 3; 2; bad at 0 | Format 4.100 / Write 8.1 8.0 4.1 8.3 0161 00 01000131 / Write 8.1 8.2 4.1 8.2 0162 00 01000131
a record of another page on the way; 1; none; 3; 3; bad at 0 | Format 4.100 / Write 8.1 8.0 4.2 8.1 0161 00 01000131 / Write 8.1 8.2 4.1 8.2 0162 00 01000131
a record of another page at the head; 2; none; 2; 2; bad at 0 | Format 4.100 / Write 8.1 8.0 4.1 8.1 0161 00 01000131
a record that names no page; 1; none; 3; 2; bad at 0 | Format 4.100 / Commit 8.1 8.0 / Write 8.1 8.2 4.1 8.2 0162 00 01000131
a chain that ends before its page is made; 1; none; 2; 1; bad at 0 | Format 4.100 / Write 8.1 8.0 4.1 8.0 0161 00 01000131
a page that is split from itself; 2; none; 3; 2; bad at 0 | Format 4.100 / Split 4.1 8.1 4.2 00 0162 00 00 0001 0162 00 000132 / Split 4.2 8.2 4.2 00 0162 00 00 0001 0162 00 000132
a write that the chain leaves out; 1; none; 3; 2; bad at 0 | Format 4.100 / Write 8.1 8.0 4.1 8.1 0161 00 01000131 / Write 8.1 8.2 4.1 8.1 0161 01000131 01000132
a record that isn't there; 1; none; 3; 2; bad at 2 | Format 4.100 / 00 / Write 8.1 8.2 4.1 8.2 0162 00 01000131
";

/// Goes over rows. Each is over these records, or over its own where it has some.
fn all_come_true<R: Wait>(
    rt: &R,
    alloc: Global,
    records: &str,
    rows: &'static str,
) -> Result<(), Fail> {
    let operators = boxed_operators!(alloc);
    for row in rows.lines() {
        let Some((name, rest)) = row.split_once("; ") else {
            return Err(Fail::new(row));
        };
        let (rest, records) = match rest.split_once(" | ") {
            Some((rest, own)) => (rest, own),
            None => (rest, records),
        };
        if comes_true(rt, alloc, &operators, records, rest) != Some(true) {
            return Err(Fail::new(name));
        }
    }
    Ok(())
}

#[test]
fn a_page_is_rebuilt_from_nothing_and_from_its_images(rt: HostRuntime) -> Result<(), Fail> {
    all_come_true(&rt, rt.alloc(), LOG, PAGES)
}

#[test]
fn a_chain_of_no_log_gives_no_page(rt: HostRuntime) -> Result<(), Fail> {
    all_come_true(&rt, rt.alloc(), "", FAULTS)
}
