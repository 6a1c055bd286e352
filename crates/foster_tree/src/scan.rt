//! The pairs of a range, leaf by leaf.
ghost use Rattle.std.specs.Prelude.{◌≡◌, ◌≤◌, ◌++◌, ◌∷◌, [], Some, drop, length, map, not, take, true, IfOk, IfErr, IsTrue, OnErr, OnOk};
ghost use Rattle.std.specs.List.{list_all};
ghost use mathlib.Core.List.{IsPrefix};
ghost use Rattle.store_model.specs.Contents.{pair_of};
ghost use Rattle.store_model.specs.Range.{has_key, is_below};
ghost use Rattle.wal_record.specs.State.{KeepsState, leaf_below, leaf_rows, rises};
ghost use Rattle.tree_laws.specs.Scan.{live_entries};
ghost use Rattle.page_ops.specs.Asking.{EndsRange};
ghost use Rattle.page_ops.specs.Causes.{FailsToBring, MeetsNoEnd};
ghost use Rattle.page_ops.specs.Claims.{no_claims};
ghost use Rattle.page_ops.specs.Desks.{IsMade};
ghost use Rattle.page_ops.specs.Seeing.{Upholds, is_upkeep, known};
ghost use Rattle.foster_tree.specs.Nows.{IsNow, KeepsDesk};
ghost use Rattle.foster_tree.specs.Scans.{Collects, part_end};

use crate::leaf::find_leaf;
use crate::way::is_above;
use front::Pass;
use page_ops::{Entering, Held, Life, Pages};
use page_rows::copied_bound;
use std::alloc::Global;
use std::sync::Wait;
use store_model::{Bound, Fault, KeyRange, Memory, Pair};
use wal_record::{Entry, LeafRow, PageState, Rows};

/// Adds the pairs of a range, in rising key order, to those that are there. The leaf with the range's last part is then in
/// hand, as the journal's log makes it now. For whoever keeps the range locked, by a transaction of a session that enters
/// nothing meanwhile, they are the pairs of one moment: the last one that the pass has seen. After a refusal the pairs are
/// as before. Each leaf of the range is taken once.
pub fn scan_leafs<N: Life, J: Entering<N>, P: Pages<N, J>, R: Wait>(
    rt: &R,
    alloc: Global,
    pages: &mut P,
    journal: &mut J,
    range: &KeyRange,
    pass: &mut Pass<Entry, N>,
    out: &mut Vec<Pair>,
) -> Result<Held<N>, Fault>
    requires none { (P.desk pages.old).out ≡ 0 }
    requires made { IsMade N.opens pass.old.log 1 }
    ensures last { IfOk result (λ held. EndsRange range.now held.state) }
    ensures pairs { OnOk result (Collects N.opens pass.old.log pass.new.log range.now range.now out.old.items out.new.items) }
    ensures same { OnErr result (out.new.items ≡ out.old.items) }
    ensures now { IfOk result (IsNow N.opens pass.new.log) }
    ensures taken { IfOk result (λ held. (P.desk pages.new).out ≡ 1) }
    ensures none { IfErr result (λ fault. (P.desk pages.new).out ≡ 0) }
    ensures desk { KeepsDesk (P.desk pages.old) (P.desk pages.new) }
    ensures begins { IsPrefix pass.old.log pass.new.log }
    ensures entered { Upholds N.opens N.entries N.session_entries is_upkeep (known (J.account journal.old) pass.old no_claims) (known (J.account journal.new) pass.new no_claims) }
    ensures open { OnOk result (MeetsNoEnd (J.account journal.old) (J.account journal.new)) }
    ensures refused { IfErr result (FailsToBring N.opens N.log_faults N.made (P.desk pages.old).faults (P.desk pages.new).faults (J.account journal.old) (J.account journal.new) pass.new.log) }
{
    let before = out.len();
    let scanned = collect(rt, alloc, pages, journal, range, pass, out);
    if scanned.is_err() {
        out.truncate(before);
    }
    scanned
}

/// The same, but that pairs stay behind after a refusal.
fn collect<N: Life, J: Entering<N>, P: Pages<N, J>, R: Wait>(
    rt: &R,
    alloc: Global,
    pages: &mut P,
    journal: &mut J,
    range: &KeyRange,
    pass: &mut Pass<Entry, N>,
    out: &mut Vec<Pair>,
) -> Result<Held<N>, Fault>
    requires none { (P.desk pages.old).out ≡ 0 }
    requires made { IsMade N.opens pass.old.log 1 }
    ensures last { IfOk result (λ held. EndsRange range.now held.state) }
    ensures pairs { OnOk result (Collects N.opens pass.old.log pass.new.log range.now range.now out.old.items out.new.items) }
    ensures more { IsPrefix out.old.items out.new.items }
    ensures now { IfOk result (IsNow N.opens pass.new.log) }
    ensures taken { IfOk result (λ held. (P.desk pages.new).out ≡ 1) }
    ensures none { IfErr result (λ fault. (P.desk pages.new).out ≡ 0) }
    ensures desk { KeepsDesk (P.desk pages.old) (P.desk pages.new) }
    ensures begins { IsPrefix pass.old.log pass.new.log }
    ensures entered { Upholds N.opens N.entries N.session_entries is_upkeep (known (J.account journal.old) pass.old no_claims) (known (J.account journal.new) pass.new no_claims) }
    ensures open { OnOk result (MeetsNoEnd (J.account journal.old) (J.account journal.new)) }
    ensures refused { IfErr result (FailsToBring N.opens N.log_faults N.made (P.desk pages.old).faults (P.desk pages.new).faults (J.account journal.old) (J.account journal.new) pass.new.log) }
{
    let mut from = copied_bound(range.low());
    for _ in rt.forever() {
        let leaf = find_leaf(rt, alloc, pages, journal, from.text(), pass)?;
        let end = end_of_part(&leaf.state, range.high());
        if let Err(memory) = gather(&leaf.state, &from, &end, out) {
            pages.put_back(rt, &mut Some(leaf));
            return Err(memory.into());
        }
        if !end.is_below(range.high()) {
            return Ok(leaf);
        }
        pages.put_back(rt, &mut Some(leaf));
        from = end;
    }
    unreachable!()
}

/// Where a scan up to this bound goes on behind the page.
fn end_of_part(state: &PageState, high: &Bound) -> Bound
    ensures { result ≡ part_end state.now high.now }
{
    let end = match &state.foster {
        Some(foster) => Bound::of_key(&foster.key),
        None => copied_bound(&state.high),
    };
    if end.is_below(high) {
        end
    } else {
        copied_bound(high)
    }
}

/// Adds the live pairs of a leaf between two bounds.
fn gather(state: &PageState, low: &Bound, high: &Bound, out: &mut Vec<Pair>) -> Result<(), Memory>
    requires { KeepsState state.now }
    ensures done { OnOk result (out.new.items ≡ out.old.items ++ map pair_of (live_entries (has_key (record { low = low.now; high = high.now })) (leaf_rows state.now.rows))) }
    ensures more { IsPrefix out.old.items out.new.items }
{
    match &state.rows {
        Rows::Leaf(rows) => add_live(rows_between(rows.as_slice(), low, high), out),
        Rows::Branch(_) => Ok(()),
    }
}

/// The rows between two bounds. It looks at as many rows as their number has binary digits, twice.
fn rows_between<'a>(rows: &'a [LeafRow], low: &Bound, high: &Bound) -> &'a [LeafRow]
    requires { IsTrue (rises leaf_below rows.now) }
    ensures { live_entries (λ key. true) result.now ≡ live_entries (has_key (record { low = low.now; high = high.now })) rows.now }
{
    let (below, _) = rows.split_at(rows_below(rows, high));
    let (_, between) = below.split_at(rows_below(below, low));
    between
}

/// How many of the rows have their keys below a bound.
fn rows_below(rows: &[LeafRow], bound: &Bound) -> usize
    requires { IsTrue (rises leaf_below rows.now) }
    ensures fits { result ≤ length rows.now }
    ensures below { list_all (λ row. is_below (Some row.key) bound.now) (take result rows.now) ≡ true }
    ensures others { list_all (λ row. not (is_below (Some row.key) bound.now)) (drop result rows.now) ≡ true }
{
    rows.partition_point(|row| is_above(bound, row.key.as_bytes()))
}

/// Adds the pairs of the rows that have a value, for which room is made at once.
fn add_live(rows: &[LeafRow], out: &mut Vec<Pair>) -> Result<(), Memory>
    ensures done { OnOk result (out.new.items ≡ out.old.items ++ map pair_of (live_entries (λ key. true) rows.now)) }
    ensures more { IsPrefix out.old.items out.new.items }
{
    out.reserve(rows.len())?;
    for row in rows {
        if !row.tombstone {
            add_pair(row, out)?;
        }
    }
    Ok(())
}

/// Adds the pair of a row. It is a function of its own, since a pair is then moved less often.
fn add_pair(row: &LeafRow, out: &mut Vec<Pair>) -> Result<(), Memory>
    ensures done { OnOk result (out.new.items ≡ out.old.items ++ record { key = row.now.key; value = row.now.value } ∷ []) }
    ensures same { OnErr result (out.new.items ≡ out.old.items) }
{
    out.push(Pair {
        key: row.key.copied(),
        value: row.value.copied(),
    })?;
    Ok(())
}
