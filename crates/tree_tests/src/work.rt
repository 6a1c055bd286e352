//! What is done to a tree, step by step.
ghost use Rattle.std.specs.Prelude.{◌≡◌, List};
ghost use Rattle.wal_record.specs.declared.record.Record.{Record};

use crate::damage::{Damaged, Way, ask_all};
use crate::steps::{Keys, change_all, key_of};
use crate::told::told_pages;
use books::SessionRight;
use foster_tree::scan_leafs;
use front::Pass;
use page_ops::{Journaling, Life, Pages};
use std::alloc::Global;
use std::sync::Wait;
use store_model::{Bound, Fault, KeyRange, Memory, PageNo, Pos};
use wal_record::Entry;

/// Keys that are changed in turn, and once more where that wants memory, the end of a transaction, or a scan from one key
/// on to another.
#[derive(Clone, Copy)]
pub(crate) enum Step {
    Change(Keys),
    Again(Keys),
    Commit,
    Scan { from: u32, behind: u32 },
}

/// The right to a new session, which has a transaction.
fn begin<N: Life, J: Journaling<N>, R: Wait>(
    rt: &R,
    alloc: Global,
    journal: &mut J,
    pass: &mut Pass<Entry, N>,
) -> Result<SessionRight<N>, Fault> {
    let mut owner = journal.session(rt, alloc, pass)?;
    journal.begin(rt, alloc, &mut owner, pass)?;
    Ok(owner)
}

/// Commits, and begins another transaction in a session of its own.
fn commit<N: Life, J: Journaling<N>, R: Wait>(
    rt: &R,
    alloc: Global,
    journal: &mut J,
    owner: &mut Option<SessionRight<N>>,
    pass: &mut Pass<Entry, N>,
) -> Result<(), Fault> {
    if let Some(mut s) = owner.take() {
        if s.tx() > 0 {
            journal.commit(rt, &mut s, pass)?;
        }
    }
    *owner = Some(begin(rt, alloc, journal, pass)?);
    Ok(())
}

/// How many pairs there are from one key on to another.
fn scan<N: Life, J: Journaling<N>, P: Pages<N, J>, R: Wait>(
    rt: &R,
    alloc: Global,
    journal: &mut J,
    pages: &mut P,
    range: &KeyRange,
    pass: &mut Pass<Entry, N>,
) -> Result<usize, Fault>
    requires untold { (opening : List Record) → N.opens opening → ⊥ }
    requires none { (P.desk pages.old).out ≡ 0 }
    ensures none { (P.desk pages.new).out ≡ 0 }
{
    let mut pairs = Vec::new(alloc);
    let leaf = scan_leafs(rt, alloc, pages, journal, range, pass, &mut pairs)?;
    pages.put_back(rt, &mut Some(leaf));
    Ok(pairs.len())
}

fn range_of(from: u32, behind: u32) -> Option<KeyRange> {
    let (low, high) = (key_of(from, 4)?, key_of(behind, 4)?);
    KeyRange::new(Bound::of_key(&low), Bound::of_key(&high))
}

/// Changes keys, and where that wants memory once more. How many entries the first try then added.
fn change_again<N: Life, J: Journaling<N>, P: Pages<N, J>, R: Wait>(
    rt: &R,
    alloc: Global,
    pages: &mut P,
    journal: &mut J,
    owner: &mut Option<SessionRight<N>>,
    keys: &Keys,
    pass: &mut Pass<Entry, N>,
) -> Result<Option<Pos>, Fault>
    requires untold { (opening : List Record) → N.opens opening → ⊥ }
    requires none { (P.desk pages.old).out ≡ 0 }
    ensures none { (P.desk pages.new).out ≡ 0 }
{
    let before = journal.length(rt, pass);
    match change_all(rt, alloc, pages, journal, owner, keys, pass) {
        Ok(()) => return Ok(None),
        Err(Fault::Memory) => {}
        Err(fault) => return Err(fault),
    }
    let behind = journal.length(rt, pass);
    change_all(rt, alloc, pages, journal, owner, keys, pass)?;
    Ok(Some(behind.saturating_sub(before)))
}

/// What steps came to: how many pairs the scans found, if there was one, and how many entries a try added that wanted
/// memory.
#[derive(Clone, Copy)]
struct Done {
    found: Option<usize>,
    refused: Option<Pos>,
}

/// Does the steps, until one is refused.
fn do_all<N: Life, J: Journaling<N>, P: Pages<N, J>, R: Wait>(
    rt: &R,
    alloc: Global,
    journal: &mut J,
    pages: &mut P,
    steps: &[Step],
    pass: &mut Pass<Entry, N>,
) -> Result<Done, Fault>
    requires untold { (opening : List Record) → N.opens opening → ⊥ }
    requires none { (P.desk pages.old).out ≡ 0 }
    ensures none { (P.desk pages.new).out ≡ 0 }
{
    let mut owner = Some(begin(rt, alloc, journal, pass)?);
    let (mut found, mut refused) = (None, None);
    for step in steps {
        match step {
            Step::Change(keys) => change_all(rt, alloc, pages, journal, &mut owner, keys, pass)?,
            Step::Again(keys) => {
                refused = change_again(rt, alloc, pages, journal, &mut owner, keys, pass)?;
            }
            Step::Commit => commit(rt, alloc, journal, &mut owner, pass)?,
            Step::Scan { from, behind } => {
                if let Some(range) = range_of(*from, *behind) {
                    let pairs = scan(rt, alloc, journal, pages, &range, pass)?;
                    found = Some(pairs.saturating_add(found.unwrap_or(0)));
                }
            }
        }
    }
    Ok(Done { found, refused })
}

/// Does the steps, damages page 2 in each of these ways in turn, and gives the letters of k100 that were found each time, together.
pub(crate) fn work_on_damaged<N: Life, J: Journaling<N>, P: Pages<N, J> + Drop, R: Wait>(
    rt: &R,
    alloc: Global,
    journal: &mut J,
    pages: P,
    steps: &[Step],
    ways: &[Way],
    pass: &mut Pass<Entry, N>,
) -> Result<String, Fault>
    requires untold { (opening : List Record) → N.opens opening → ⊥ }
    requires none { (P.desk pages).out ≡ 0 }
{
    let mut pages = Damaged::new(pages);
    do_all(rt, alloc, journal, &mut pages, steps, pass)?;
    let letters = ask_all(rt, alloc, &mut pages, journal, ways, pass)?;
    let told = told_pages::<N, J, Damaged<N, P>, R>(rt, alloc, &mut pages, 3)?;
    Ok(format!(in alloc; "{told}letters {letters}\n")?)
}

/// What is told of the pages below this number once the steps were done, and of the step that was refused as full.
pub(crate) fn work<N: Life, J: Journaling<N>, P: Pages<N, J>, R: Wait>(
    rt: &R,
    alloc: Global,
    journal: &mut J,
    pages: &mut P,
    steps: &[Step],
    behind: PageNo,
    pass: &mut Pass<Entry, N>,
) -> Result<String, Fault>
    requires untold { (opening : List Record) → N.opens opening → ⊥ }
    requires none { (P.desk pages.old).out ≡ 0 }
{
    let (done, full) = match do_all(rt, alloc, journal, pages, steps, pass) {
        Ok(done) => (done, None),
        Err(
            Fault::Full {
                pages,
                pending,
                at: _,
            },
        ) => {
            let none = Done {
                found: None,
                refused: None,
            };
            (none, Some((pages, pending)))
        }
        Err(fault) => return Err(fault),
    };
    let count = journal.pages(rt, pass);
    let told = told_pages::<N, J, P, R>(rt, alloc, pages, behind)?;
    let end = end_text(alloc, done, full)?;
    Ok(format!(in alloc; "pages {count}\n{told}{end}")?)
}

/// What the steps came to, and what there was where a put was refused as full.
fn end_text(alloc: Global, done: Done, full: Option<(u32, u32)>) -> Result<String, Memory> {
    if let Some((pages, pending)) = full {
        return Ok(format!(in alloc; "full {pages} {pending}\n")?);
    }
    Ok(match (done.found, done.refused) {
        (Some(pairs), _) => format!(in alloc; "pairs {pairs}\n")?,
        (None, Some(entries)) => format!(in alloc; "refused behind {entries} entries\n")?,
        (None, None) => String::new(alloc),
    })
}
