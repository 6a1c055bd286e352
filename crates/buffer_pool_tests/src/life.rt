//! A life with one page, in a pool over a device in memory.
ghost use Rattle.std.specs.Prelude.{◌≡◌, ℕ, List, [], ◌∷◌, ◌++◌, None, IfOk, IfSome};
ghost use Rattle.books.specs.Booking.{entry, entry_of};
ghost use Rattle.page_index.specs.Index.{home_of};
ghost use Rattle.page_ops.specs.Claims.{IsInRange};
ghost use Rattle.wal_record.specs.declared.record.Record.{Record};

use crate::supply::EmptyLeaf;
use crate::telling::Telling;
use books::{Book, BookTables, PageBook, PageRight};
use buffer_pool::PlainPool;
use front::Pass;
use media_mem::MemPages;
use page_index::PageIndex;
use page_ops::{Ground, Life, Tokens};
use page_repair::OwnImages;
use restart::RestartPlan;
use std::alloc::Global;
use store_model::{Fault, List, Lsn, Memory, PageNo};
use untold_journal::{Counts, Untold};
use wal_record::{Analysis, Entry, PageHead};

/// The head of the one page, page 1.
pub(crate) const HEAD: Lsn = 5;

/// The right to a page at this head.
fn first_right<N: Life>(
    tables: &BookTables<N>,
    book: &mut Book<PageBook<N>>,
    page: PageNo,
) -> PageRight<N>
    requires none { entry_of page book.old ≡ None }
    ensures right { result ≡ record { page = page; lsn = 5 } }
    ensures book { book.new ≡ book.old ++ entry page 5 0 ∷ [] }
{
    let right = book.open(&tables.pages, page);
    PageRight::of(book.set(&tables.pages, right, HEAD, 0))
}

/// An index of twelve pages with one right at home.
fn index_with<N: Life>(alloc: Global, right: PageRight<N>) -> Result<PageIndex<N>, Memory>
    requires right { right ≡ record { page = 1; lsn = 5 } }
    ensures rights { IfOk result (λ index. (page : ℕ) → IfSome (home_of index page) IsInRange) }
{
    let mut index = PageIndex::new(alloc, 12)?;
    index.give_right(right);
    Ok(index)
}

/// The analysis of a log with that page, which was last written as this LSN.
fn opening(alloc: Global, written: Lsn) -> Result<Analysis, Memory> {
    let mut heads = List::new(alloc);
    heads.push(PageHead {
        head: HEAD,
        written,
        backup: 0,
        backup_lsn: 0,
    })?;
    Ok(Analysis {
        losers: List::new(alloc),
        heads,
        lost: 0,
        unrestored: List::new(alloc),
        runs: List::new(alloc),
        commits: 0,
        next_tx: 1,
        next_backup: 1,
        next_run: 1,
        limit: 12,
    })
}

/// A journal, a pool and a first pass.
#[derive(Drop)]
pub(crate) struct Begun<'a, N: Life> {
    pub(crate) journal: Telling<'a, N>,
    pub(crate) pool: PlainPool<OwnImages<'a, MemPages, N>, EmptyLeaf, N>,
    pub(crate) pass: Pass<Entry, N>,
    ghost none: { pool.out ≡ 0 },
}

/// The page was last written as this LSN. Of the calls that may want memory the one of this number does.
pub(crate) fn begin<'a, N: Life>(
    alloc: Global,
    ground: &'a Ground<N>,
    tokens: Tokens<N>,
    device: MemPages,
    written: Lsn,
    refuse_at: u32,
) -> Result<Begun<'a, N>, Fault>
    requires untold { (opening : List Record) → N.opens opening → ⊥ }
    requires parts { (N.entries.parts ≡ 1) × (N.session_entries.parts ≡ 1) × (N.log_faults.parts ≡ 1) × (N.vault_faults.parts ≡ 1) × (N.made.parts ≡ 1) }
    requires front { tokens.front ≡ [] }
    requires mark { tokens.mark ≡ 0 }
    requires pages { tokens.books.pages ≡ [] }
    requires sessions { tokens.books.sessions ≡ [] }
    requires maint { tokens.books.maint ≡ [] }
{
    let Tokens {
        front,
        mark: _,
        mut pass,
        mut books,
        entries,
        session_entries,
        log_faults,
        vault_faults,
        data_faults: _,
        made,
    } = tokens;
    let right = first_right(&ground.tables, &mut books.pages, 1);
    let index = index_with(alloc, right)?;
    let (entries_book, entries) = entries.open();
    let (session_book, session_entries) = session_entries.open();
    let (_, log_faults) = log_faults.open();
    let (_, vault_faults) = vault_faults.open();
    let (_, made) = made.open();
    let history = Untold::new(
        ground,
        front,
        books.sessions,
        books.maint,
        entries_book,
        session_book,
    );
    let counts = Counts {
        entries,
        session_entries,
        log_faults,
        vault_faults,
        made,
    };
    let images = OwnImages::new(ground, device, pass.copy(&ground.board));
    let supply = EmptyLeaf {
        from_base: 0,
        from_nothing: 0,
    };
    let plan = RestartPlan::new(alloc, &opening(alloc, written)?)?;
    let Ok(pool) = PlainPool::new(alloc, images, supply, index, plan) else {
        return Err(Fault::Memory);
    };
    Ok(Begun {
        journal: Telling {
            history,
            counts,
            head: HEAD,
            written,
            flushed: 0,
            calls: 0,
            refuse_at,
            repairs: 0,
            writes: 0,
        },
        pool,
        pass,
    })
}
