//! What a life begins with.
ghost use Rattle.std.specs.Prelude.{◌≡◌, ◌≢◌, ◌≤◌, ℕ, List, [], ◌∷◌, ◌++◌, None, IfOk, IfSome, IsTrue};
ghost use Rattle.books.specs.Booking.{entry, entry_of};
ghost use Rattle.page_index.specs.Index.{IsIn, home_of, limit_of};
ghost use Rattle.page_ops.specs.Claims.{IsInRange};
ghost use Rattle.store_model.specs.declared.limits.TheConstants.{MOST_PAGES};
ghost use Rattle.wal_record.specs.Chains.{head, pages};
ghost use Rattle.wal_record.specs.Rules.{is_number};
ghost use Rattle.wal_record.specs.Sound.{AreLawful, IsSound};
ghost use Rattle.wal_record.specs.declared.record.Record.{Record};
ghost use Rattle.log_index.specs.Listing.{IsListingOf};
ghost use Rattle.life_history.specs.Kept.{AreKept, Begins, IsSmall};
ghost use Rattle.opening_rights.specs.Opened.{AreAtHome, ArePagesOf, Homes, NoneAbove, places_of};

use books::{Book, BookNames, BookTables, Books, MaintRight, PageBook, PageRight};
use log_index::Listing;
use page_index::PageIndex;
use page_ops::Life;
use std::alloc::Global;
use store_model::{HIGHEST, Lsn, MOST_PAGES, Memory, PageNo, TxId};

/// The fewest frames of a pool, which else has one for each place of its index. A descent holds a parent and its child, and
/// a split with the growth above it takes pages beside them.
pub const LEAST_FRAMES: u32 = 12;

/// The rights to the pages, each at home, that to maintenance, and the numbers that come next.
#[derive(Drop)]
pub struct Opening<N: BookNames> {
    pub index: PageIndex<N>,
    pub maint: MaintRight<N>,
    pub next_page: PageNo,
    pub next_tx: TxId,
}

/// The rights of a life of which no right was handed out, after the log of this listing. The index has room for as many
/// pages as the store may have, and at least for [`LEAST_FRAMES`]. `Memory` where there is none for it, or where the
/// listing has more pages or higher LSNs than a log can have.
pub fn begin<N: Life>(
    alloc: Global,
    tables: &BookTables<N>,
    books: &mut Books<N>,
    listing: &Listing,
) -> Result<Opening<N>, Memory>
    requires empty { (books.old.pages ≡ []) × (books.old.sessions ≡ []) × (books.old.maint ≡ []) }
    requires listed { (opening : List Record) → N.opens opening → IsListingOf opening listing.now }
    requires sound { (opening : List Record) → N.opens opening → IsSound opening × (opening ≢ []) }
    ensures books { IfOk result (λ o. AreKept N.opens [] (record { pages = books.new.pages; sessions = books.new.sessions; maint = books.new.maint })) }
    ensures sessions { books.new.sessions ≡ [] }
    ensures small { IfOk result (λ o. IsSmall o.next_page (record { pages = books.new.pages; sessions = books.new.sessions; maint = books.new.maint })) }
    ensures number { IfOk result (λ o. 1 ≤ o.next_tx) }
    ensures begins { IfOk result (λ o. (opening : List Record) → N.opens opening → Begins opening o.next_tx) }
    ensures limit { IfOk result (λ o. (opening : List Record) → N.opens opening → limit_of o.index ≡ places_of opening) }
    ensures homes { IfOk result (λ o. (opening : List Record) → N.opens opening → AreAtHome opening o.index) }
    ensures range { IfOk result (λ o. (page : ℕ) → IfSome (home_of o.index page) IsInRange) }
    ensures maint { IfOk result (λ o. o.maint ≡ record { number = 0; lsn = 0 }) }
{
    let pages = match u32::try_from(listing.pages()) {
        Ok(pages) if pages <= MOST_PAGES => pages,
        _ => return Err(Memory),
    };
    let limit = listing.limit().max(pages).max(LEAST_FRAMES);
    let index = open_pages(alloc, tables, &mut books.pages, listing, pages, limit)?;
    Ok(Opening {
        index,
        maint: MaintRight::of(books.maint.open(&tables.maint, 0)),
        next_page: pages + 1,
        next_tx: listing.next_tx().max(1),
    })
}

/// The rights to so many pages, each at home, in an index of pages up to this limit.
fn open_pages<N: BookNames>(
    alloc: Global,
    tables: &BookTables<N>,
    book: &mut Book<PageBook<N>>,
    listing: &Listing,
    pages: u32,
    limit: u32,
) -> Result<PageIndex<N>, Memory>
    requires empty { book.old ≡ [] }
    requires within { pages ≤ limit }
    requires most { pages ≤ MOST_PAGES }
    ensures limit { IfOk result (λ index. limit_of index ≡ limit) }
    ensures few { IfOk result (λ index. NoneAbove pages book.new) }
    ensures pages { IfOk result (λ index. (log : List Record) → IsListingOf log listing.now → AreLawful log → ArePagesOf log pages index book.new) }
    ensures range { IfOk result (λ index. (page : ℕ) → IfSome (home_of index page) IsInRange) }
{
    let mut index = PageIndex::new(alloc, limit)?;
    let mut page = 0;
    while page < pages {
        page += 1;
        let head = head_of(listing, page)?;
        let written = listing.written_lsn(page);
        open_page(tables, book, &mut index, page, head, written);
    }
    Ok(index)
}

/// The head of a page, if it is a number that an LSN can have.
fn head_of(listing: &Listing, page: PageNo) -> Result<Lsn, Memory>
    ensures head { (log : List Record) → IsListingOf log listing.now → AreLawful log → IfOk result (λ lsn. lsn ≡ head log page) }
    ensures number { IfOk result (λ lsn. IsTrue (is_number lsn)) }
{
    let lsn = listing.head(page);
    if lsn == 0 || lsn > HIGHEST {
        Err(Memory)
    } else {
        Ok(lsn)
    }
}

/// The right to a page that stands at this head is at home, and the page is written as that LSN.
fn open_page<N: BookNames>(
    tables: &BookTables<N>,
    book: &mut Book<PageBook<N>>,
    index: &mut PageIndex<N>,
    page: PageNo,
    head: Lsn,
    written: Lsn,
)
    requires none { entry_of page book.old ≡ None }
    requires page { IsIn index.old page }
    ensures book { book.new ≡ book.old ++ entry page head 0 ∷ [] }
    ensures home { Homes index.old index.new page head written }
{
    let right = book.open(&tables.pages, page);
    let right = PageRight::of(book.set(&tables.pages, right, head, 0));
    index.give_right(right);
    index.note_written(page, written);
}
