//! A store with one empty leaf, which one thread owns, over the journal of a life of which no opening log is known.
ghost use Rattle.std.specs.Prelude.{◌≡◌, List, [], ◌∷◌, ◌++◌, None, IfOk, IfSome};
ghost use Rattle.books.specs.Booking.{entry, entry_of};
ghost use Rattle.wal_record.specs.State.{KeepsState};
ghost use Rattle.wal_record.specs.declared.record.Record.{Record};

use books::{Book, BookTables, PageBook, PageRight};
use front::Pass;
use journal::Journal;
use life_history::{Counts, History};
use listed_log::ListedLog;
use log_blocks::open_log;
use log_index::Listing;
use log_manager::LogManager;
use losers::Losers;
use media::Disk;
use own_journal::OwnJournal;
use page_ops::{Ground, Held, Life, Tokens};
use small_stores::{Frames, OwnPages};
use std::alloc::Global;
use std::slice;
use store_model::{Bound, LEAST_LIMIT, List, MOST_PAGES, Memory, PageNo};
use wal_record::{Entry, Format, PageState, Record, Rows};

/// An empty leaf with all keys.
pub fn empty_leaf(alloc: Global) -> Option<PageState>
    ensures { IfSome result KeepsState }
{
    Some(PageState {
        level: 0,
        low: Bound::at(&[])?,
        high: Bound::top(),
        foster: None,
        rows: Rows::Leaf(List::new(alloc)),
    })
}

/// A log of one record, the format of a store of up to so many pages and open writes.
pub fn new_log<L: Disk + Drop>(alloc: Global, disk: L, limit: u32) -> Result<ListedLog<L>, Memory>
    ensures open { IfOk result (λ log. log.log.log.ended ≡ None) }
{
    if limit < LEAST_LIMIT || MOST_PAGES < limit {
        return Err(Memory);
    }
    let Ok(blocks) = open_log(alloc, disk) else {
        return Err(Memory);
    };
    let mut log = ListedLog::new(LogManager::start(alloc, blocks), Listing::new(alloc));
    let format = Record::Format(Format { limit });
    match log.append_group(alloc, slice::from_ref(&format)) {
        Ok(_) => Ok(log),
        Err(_) => Err(Memory),
    }
}

/// Places for so many pages, none of which is there.
pub fn no_pages<N: Life>(alloc: Global, places: u32) -> Result<Frames<N>, Memory> {
    let mut frames = Vec::new(alloc);
    for _ in 0..places {
        frames.push(None)?;
    }
    Ok(Frames::new(frames))
}

/// The right to a page whose last record is the log's first.
fn first_right<N: Life>(
    tables: &BookTables<N>,
    book: &mut Book<PageBook<N>>,
    page: PageNo,
) -> PageRight<N>
    requires none { entry_of page book.old ≡ None }
    ensures right { result ≡ record { page = page; lsn = 1 } }
    ensures book { book.new ≡ book.old ++ entry page 1 0 ∷ [] }
{
    let right = book.open(&tables.pages, page);
    PageRight::of(book.set(&tables.pages, right, 1, 0))
}

/// A store of one thread, and a first pass.
#[derive(Drop)]
pub struct Planted<'a, L: Disk, N: Life> {
    pub journal: OwnJournal<'a, L, N>,
    pub pages: OwnPages<N>,
    pub pass: Pass<Entry, N>,
    ghost none: { pages.out ≡ 0 },
}

/// Page 1 is in its frame.
#[tactic(auto, using(crate::proofs::Begun::one_page))]
pub fn plant<'a, L: Disk, N: Life>(
    alloc: Global,
    ground: &'a Ground<N>,
    tokens: Tokens<N>,
    log: ListedLog<L>,
    state: PageState,
    frames: Frames<N>,
) -> Planted<'a, L, N>
    requires untold { (opening : List Record) → N.opens opening → ⊥ }
    requires parts { (N.entries.parts ≡ 1) × (N.session_entries.parts ≡ 1) × (N.log_faults.parts ≡ 1) × (N.vault_faults.parts ≡ 1) × (N.made.parts ≡ 1) }
    requires front { tokens.front ≡ [] }
    requires mark { tokens.mark ≡ 0 }
    requires pages { tokens.books.pages ≡ [] }
    requires sessions { tokens.books.sessions ≡ [] }
    requires maint { tokens.books.maint ≡ [] }
    requires open { log.log.log.ended ≡ None }
    requires keeps { KeepsState state }
{
    let Tokens {
        front,
        mark,
        pass,
        mut books,
        entries,
        session_entries,
        log_faults,
        vault_faults,
        data_faults: _,
        made,
    } = tokens;
    let right = first_right(&ground.tables, &mut books.pages, 1);
    let (entries_book, entries) = entries.open();
    let (session_book, session_entries) = session_entries.open();
    let (faults, log_faults) = log_faults.open();
    let (_, vault_faults) = vault_faults.open();
    let (made_book, made) = made.open();
    let history = History::new(
        ground,
        front,
        books,
        entries_book,
        session_book,
        made_book,
        1,
        2,
    );
    let counts = Counts {
        entries,
        session_entries,
        log_faults,
        vault_faults,
        made,
        ended: None,
        faults: 0,
    };
    let (pages, mut pass) = with_leaf(ground, frames, state, right, pass);
    let losers = Losers::none(alloc);
    let journal = Journal::start(alloc, log, history, mark, faults, losers, &mut pass);
    Planted {
        journal: OwnJournal { journal, counts },
        pages,
        pass,
    }
}

/// The pages with that leaf as page 1 in its frame.
fn with_leaf<N: Life>(
    ground: &Ground<N>,
    mut frames: Frames<N>,
    state: PageState,
    right: PageRight<N>,
    mut pass: Pass<Entry, N>,
) -> (OwnPages<N>, Pass<Entry, N>)
    requires untold { (opening : List Record) → N.opens opening → ⊥ }
    requires right { right ≡ record { page = 1; lsn = 1 } }
    requires keeps { KeepsState state }
    ensures none { result.0.out ≡ 0 }
{
    let seen = pass.copy(&ground.board);
    frames.put_back(Held {
        page: 1,
        lsn: 1,
        state,
        dirty: false,
        right: Some(right),
        pass: seen,
    });
    (OwnPages::new(frames), pass)
}
