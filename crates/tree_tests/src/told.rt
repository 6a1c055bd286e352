//! What the pages of a tree have, as text.
ghost use Rattle.std.specs.Prelude.{◌≡◌};

use page_ops::{Entering, Life, Pages, Taken};
use std::alloc::Global;
use std::str;
use std::sync::Wait;
use store_model::{Memory, PageNo};
use wal_record::{BranchRow, LeafRow, PageState, Rows};

/// Its first four bytes.
fn head(bytes: &[u8]) -> &str {
    str::from_utf8(bytes.get(..4).unwrap_or(bytes)).unwrap_or("?")
}

fn key_at(rows: &[LeafRow], place: usize) -> &str {
    match rows.get(place) {
        Some(row) => head(row.key.as_bytes()),
        None => "",
    }
}

/// How many rows, how many tombstones among them, the letters of all values, the first key and the last one.
fn leaf_text(alloc: Global, rows: &[LeafRow]) -> Result<String, Memory> {
    let count = rows.len();
    let (mut dead, mut letters) = (0u32, 0usize);
    for row in rows {
        if row.tombstone {
            dead = dead.saturating_add(1);
        }
        letters = letters.saturating_add(row.value.as_bytes().len());
    }
    let (first, last) = (key_at(rows, 0), key_at(rows, count.saturating_sub(1)));
    Ok(format!(in alloc; " {count} {dead} {letters} {first} {last}")?)
}

/// Each row's bound and child.
fn branch_text(alloc: Global, rows: &[BranchRow]) -> Result<String, Memory> {
    let mut out = String::new(alloc);
    for row in rows {
        let (low, child) = (head(row.low.text()), row.child);
        let text = format!(in alloc; " {low}>{child}")?;
        out.push_str(text.as_str())?;
    }
    Ok(out)
}

/// Its level, its fences, its foster child, and its rows, in a line.
fn state_text(alloc: Global, state: &PageState) -> Result<String, Memory> {
    let high = match state.high.as_bytes() {
        Some(bytes) => head(bytes),
        None => "-",
    };
    let (level, low) = (state.level, head(state.low.text()));
    let foster = match &state.foster {
        Some(foster) => {
            let (key, child) = (head(foster.key.as_bytes()), foster.child);
            format!(in alloc; " {key}>{child}")?
        }
        None => String::new(alloc),
    };
    let rows = match &state.rows {
        Rows::Leaf(rows) => leaf_text(alloc, rows.as_slice())?,
        Rows::Branch(rows) => branch_text(alloc, rows.as_slice())?,
    };
    Ok(format!(in alloc; "{level} {low}..{high}{foster}{rows}\n")?)
}

/// The pages that are in their frames, below this number, a line each.
pub(crate) fn told_pages<N: Life, J: Entering<N>, P: Pages<N, J>, R: Wait>(
    rt: &R,
    alloc: Global,
    pages: &mut P,
    behind: PageNo,
) -> Result<String, Memory>
    requires none { (P.desk pages.old).out ≡ 0 }
    ensures none { (P.desk pages.new).out ≡ 0 }
{
    let mut out = String::new(alloc);
    for page in 1..behind {
        if let Taken::Page(held) = pages.try_take(rt, page) {
            let text = state_text(alloc, &held.state);
            pages.put_back(rt, &mut Some(held));
            out.push_str(text?.as_str())?;
        }
    }
    Ok(out)
}
