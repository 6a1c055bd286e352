//! A pool of which a page may be damaged in its frame. A page that is renewed is as it was.
ghost use Rattle.std.specs.Prelude.{◌≡◌, IfSome, List};
ghost use Rattle.wal_record.specs.State.{KeepsState};
ghost use Rattle.wal_record.specs.declared.record.Record.{Record};

use crate::steps::key_of;
use foster_tree::{find_leaf, lookup};
use front::Pass;
use page_ops::{Entering, Held, Life, Pages, Taken};
use std::alloc::Global;
use std::marker::{Model, PhantomData};
use std::mem;
use std::sync::Wait;
use store_model::{Bound, Fault, Key, List, PageNo};
use wal_record::{BranchRow, Entry, Foster, PageState, Rows};

/// A state that keeps its rules.
#[derive(Drop)]
struct Kept {
    state: PageState,
}

impl Model for Kept {
    ghost use Rattle.wal_record.specs.State.{KeepsState};
    ghost use Rattle.wal_record.specs.declared.page.PageState.{PageState};

    ghost Value = { PageState };

    ghost view = { λ k. k.state };

    ghost invariant = { λ k. KeepsState k.state };
}

/// Pages of a life of which no opening log is known, and what the damaged one was.
#[derive(Drop)]
pub(crate) struct Damaged<N: Life, P> {
    pages: P,
    page: PageNo,
    kept: Option<Kept>,
    life: PhantomData<N>,
    ghost untold: { (opening : List Record) → N.opens opening → ⊥ },
}

impl<N: Life, P> Damaged<N, P> {
    pub(crate) fn new(pages: P) -> Damaged<N, P>
        requires untold { (opening : List Record) → N.opens opening → ⊥ }
        ensures { result.pages ≡ pages }
    {
        Damaged {
            pages,
            page: 0,
            kept: None,
            life: PhantomData,
        }
    }

    /// The page in hand is damaged: it has this state.
    fn spoil(&mut self, held: &mut Held<N>, state: PageState)
        requires keeps { KeepsState state }
        ensures same { self.new.pages ≡ self.old.pages }
    {
        self.page = held.page;
        self.kept = Some(Kept {
            state: mem::replace(&mut held.state, state),
        });
    }

    /// The page in hand is as it was.
    fn mend(&mut self, held: &mut Held<N>)
        ensures same { self.new.pages ≡ self.old.pages }
    {
        if held.page == self.page {
            if let Some(Kept { state }) = self.kept.take() {
                held.state = state;
            }
        }
    }
}

impl<N: Life, J: Entering<N>, P: Pages<N, J>> Pages<N, J> for Damaged<N, P> {
    ghost desk = { λ d. P.desk d.pages };

    fn out(&self) -> u32 {
        self.pages.out()
    }

    fn log_faults(&self) -> u64 {
        self.pages.log_faults()
    }

    fn vault_faults(&self) -> u64 {
        self.pages.vault_faults()
    }

    fn try_take<R: Wait>(&mut self, rt: &R, page: PageNo) -> Taken<Held<N>> {
        self.pages.try_take(rt, page)
    }

    fn wait_for<R: Wait>(&mut self, rt: &R, page: PageNo) {
        self.pages.wait_for(rt, page);
    }

    fn bring<R: Wait>(
        &mut self,
        rt: &R,
        alloc: Global,
        journal: &mut J,
        page: PageNo,
        pass: &mut Pass<Entry, N>,
    ) -> Result<(), Fault> {
        self.pages.bring(rt, alloc, journal, page, pass)
    }

    fn renew<R: Wait>(
        &mut self,
        rt: &R,
        alloc: Global,
        journal: &mut J,
        held: &mut Option<Held<N>>,
        pass: &mut Pass<Entry, N>,
    ) -> Result<(), Fault> {
        if let Some(damaged) = held {
            self.mend(damaged);
        }
        self.pages.renew(rt, alloc, journal, held, pass)
    }

    fn put_back<R: Wait>(&mut self, rt: &R, held: &mut Option<Held<N>>) {
        self.pages.put_back(rt, held);
    }

    fn reserve_new<R: Wait>(
        &mut self,
        rt: &R,
        alloc: Global,
        journal: &mut J,
        pass: &mut Pass<Entry, N>,
    ) -> Result<(), Fault> {
        self.pages.reserve_new(rt, alloc, journal, pass)
    }

    fn put_new<R: Wait>(&mut self, rt: &R, held: &mut Option<Held<N>>) {
        self.pages.put_new(rt, held);
    }

    fn drop_new<R: Wait>(&mut self, rt: &R) {
        self.pages.drop_new(rt);
    }
}

/// A way in which a leaf is wrong that has the keys from k072 on: below k144, by its parent, or all others, by its foster
/// parent. Each of these states keeps the rules of a page, so only a step to it, or from it, shows what is wrong.
#[derive(Clone, Copy)]
pub(crate) enum Way {
    BeginsEarly,
    EndsEarly,
    EndsLate,
    /// It claims the fence keys of page 4.
    Another,
    NoLeaf,
    /// Its foster child is page 4, which doesn't begin with its foster key.
    WrongFoster,
}

/// Its low fence key is too low for one that begins with k072.
fn begins_early(alloc: Global) -> Option<PageState>
    ensures { IfSome result KeepsState }
{
    Some(PageState {
        level: 0,
        low: Bound::at(b"k071")?,
        high: Bound::top(),
        foster: None,
        rows: Rows::Leaf(List::new(alloc)),
    })
}

/// Its high fence key is too low for one that has all keys from k072 on.
fn ends_early(alloc: Global) -> Option<PageState>
    ensures { IfSome result KeepsState }
{
    Some(PageState {
        level: 0,
        low: Bound::at(b"k072")?,
        high: Bound::at(b"k144")?,
        foster: None,
        rows: Rows::Leaf(List::new(alloc)),
    })
}

/// Its high fence key is too high for one that ends with k144.
fn ends_late(alloc: Global) -> Option<PageState>
    ensures { IfSome result KeepsState }
{
    Some(PageState {
        level: 0,
        low: Bound::at(b"k072")?,
        high: Bound::top(),
        foster: None,
        rows: Rows::Leaf(List::new(alloc)),
    })
}

/// It claims the fence keys of page 4.
fn another(alloc: Global) -> Option<PageState>
    ensures { IfSome result KeepsState }
{
    Some(PageState {
        level: 0,
        low: Bound::at(b"k144")?,
        high: Bound::at(b"k216")?,
        foster: None,
        rows: Rows::Leaf(List::new(alloc)),
    })
}

/// It is no leaf.
fn no_leaf(alloc: Global) -> Option<PageState>
    ensures { IfSome result KeepsState }
{
    let mut rows = List::new(alloc);
    let low = Bound::at(b"k072")?;
    rows.push(BranchRow { low, child: 2 }).ok()?;
    Some(PageState {
        level: 1,
        low: Bound::at(b"k072")?,
        high: Bound::top(),
        foster: None,
        rows: Rows::Branch(rows),
    })
}

/// Its keys from k090 on are those of a foster child, which is no child of it.
fn wrong_foster(alloc: Global) -> Option<PageState>
    ensures { IfSome result KeepsState }
{
    Some(PageState {
        level: 0,
        low: Bound::at(b"k072")?,
        high: Bound::at(b"k144")?,
        foster: Some(Foster {
            key: Key::new(b"k090")?,
            child: 4,
        }),
        rows: Rows::Leaf(List::new(alloc)),
    })
}

/// A state that is wrong in this way.
fn wrong_state(alloc: Global, way: Way) -> Option<PageState>
    ensures { IfSome result KeepsState }
{
    match way {
        Way::BeginsEarly => begins_early(alloc),
        Way::EndsEarly => ends_early(alloc),
        Way::EndsLate => ends_late(alloc),
        Way::Another => another(alloc),
        Way::NoLeaf => no_leaf(alloc),
        Way::WrongFoster => wrong_foster(alloc),
    }
}

/// The page is damaged, if it is in its frame.
fn spoil_page<N: Life, J: Entering<N>, P: Pages<N, J>, R: Wait>(
    rt: &R,
    pages: &mut Damaged<N, P>,
    page: PageNo,
    state: PageState,
)
    requires none { (P.desk pages.old.pages).out ≡ 0 }
    requires keeps { KeepsState state }
    ensures none { (P.desk pages.new.pages).out ≡ 0 }
{
    if let Taken::Page(mut held) = pages.pages.try_take(rt, page) {
        pages.spoil(&mut held, state);
        pages.pages.put_back(rt, &mut Some(held));
    }
}

/// How many letters the value of a key has.
fn letters_of<N: Life, J: Entering<N>, P: Pages<N, J>, R: Wait>(
    rt: &R,
    alloc: Global,
    pages: &mut P,
    journal: &mut J,
    number: u32,
    pass: &mut Pass<Entry, N>,
) -> Result<usize, Fault>
    requires untold { (opening : List Record) → N.opens opening → ⊥ }
    requires none { (P.desk pages.old).out ≡ 0 }
    ensures none { (P.desk pages.new).out ≡ 0 }
{
    let Some(key) = key_of(number, 4) else {
        return Ok(0);
    };
    let leaf = find_leaf(rt, alloc, pages, journal, key.as_bytes(), pass)?;
    let value = lookup(&leaf.state, &key);
    pages.put_back(rt, &mut Some(leaf));
    Ok(match value {
        Some(value) => value.as_bytes().len(),
        None => 0,
    })
}

/// Damages page 2 in each of these ways in turn, and asks for the value of k100 then. The letters found, together.
pub(crate) fn ask_all<N: Life, J: Entering<N>, P: Pages<N, J>, R: Wait>(
    rt: &R,
    alloc: Global,
    pages: &mut Damaged<N, P>,
    journal: &mut J,
    ways: &[Way],
    pass: &mut Pass<Entry, N>,
) -> Result<usize, Fault>
    requires none { (P.desk pages.old.pages).out ≡ 0 }
    ensures none { (P.desk pages.new.pages).out ≡ 0 }
{
    let mut letters = 0usize;
    for way in ways {
        if let Some(state) = wrong_state(alloc, *way) {
            spoil_page::<N, J, P, R>(rt, pages, 2, state);
        }
        let found = letters_of(rt, alloc, pages, journal, 100, pass)?;
        letters = letters.saturating_add(found);
    }
    Ok(letters)
}
