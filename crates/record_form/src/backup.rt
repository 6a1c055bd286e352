//! The pages of a backup.
ghost use Rattle.std.specs.Prelude.{◌≡◌, ◌<◌, ◌≤◌, IsTrue, length};
ghost use Rattle.store_model.specs.Along.{AllAlong};
ghost use Rattle.store_model.specs.declared.limits.TheConstants.{MOST_PAGES};
ghost use Rattle.wal_record.specs.Rules.{page_lsn_fits};
ghost use Rattle.wal_record.specs.Rules as rules;

use crate::fields::is_number;
use store_model::MOST_PAGES;
use wal_record::PageLsn;

/// Whether so many pages may stand in one backup record.
pub(crate) fn is_page_count(count: usize) -> bool
    ensures { result ≡ rules.is_page_count count }
{
    1 <= count && count <= 16
}

/// Whether a page may stand behind this one, or first behind 0.
fn page_follows(last: u32, page: &PageLsn) -> bool
    ensures follows { IsTrue result → (last < page.now.page) × (page.now.page ≤ MOST_PAGES) × IsTrue (rules.is_number page.now.lsn) }
    ensures all { last < page.now.page → page.now.page ≤ MOST_PAGES → IsTrue (rules.is_number page.now.lsn) → IsTrue result }
{
    last < page.page && page.page <= MOST_PAGES && is_number(page.lsn)
}

/// Whether the pages rise, each with the LSN of a record.
pub(crate) fn are_page_lsns(pages: &[PageLsn]) -> bool
    ensures fit { IsTrue result → AllAlong (λ before p. IsTrue (page_lsn_fits before p)) pages.now }
    ensures all { AllAlong (λ before p. IsTrue (page_lsn_fits before p)) pages.now → IsTrue result }
{
    let mut last = 0;
    for page in pages {
        if !page_follows(last, page) {
            return false;
        }
        last = page.page;
    }
    true
}
