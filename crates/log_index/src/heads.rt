//! The page recovery index: an entry for each page, from page 1 on.
ghost use Rattle.std.specs.Prelude.{◌≡◌, ◌<◌, ◌⊎◌, ◌++◌, ◌∷◌, [], suc, length, map, IfSome, IfNone, OnOk, vec_len, vec_capacity};
ghost use Rattle.listing_laws.specs.Summary.{at_page, backed_up, entry_at, first_head, heads_step, with_backup, with_head, with_written};
ghost use Rattle.log_index.specs.Ready.{HasPlace, makes_page};

use crate::copies::copy_of_head;
use std::alloc::AllocError;
use store_model::{Lsn, PageNo};
use wal_record::{PageHead, PageLsn, Record};

/// The place of a page's entry, if it has one.
fn place_of(heads: &[PageHead], page: PageNo) -> Option<usize>
    ensures some { IfSome result (λ i. (page ≡ suc i) × (i < length heads.now)) }
    ensures none { IfNone result ((page ≡ 0) ⊎ (length heads.now < page)) }
{
    let place = (page as usize).checked_sub(1)?;
    if place < heads.len() {
        Some(place)
    } else {
        None
    }
}

/// The LSN of the last record that names the page, 0 for none.
pub fn head_of(heads: &[PageHead], page: PageNo) -> Lsn
    ensures { result ≡ (entry_at page heads.now).head }
{
    match place_of(heads, page) {
        Some(place) => heads[place].head,
        None => 0,
    }
}

/// The LSN of the last image of the page that was written since the last loss, 0 for none.
pub fn written_of(heads: &[PageHead], page: PageNo) -> Lsn
    ensures { result ≡ (entry_at page heads.now).written }
{
    match place_of(heads, page) {
        Some(place) => heads[place].written,
        None => 0,
    }
}

/// The page's entry. Where there is none it has zeros.
pub fn entry_of(heads: &[PageHead], page: PageNo) -> PageHead
    ensures { result ≡ entry_at page heads.now }
{
    match place_of(heads, page) {
        Some(place) => copy_of_head(&heads[place]),
        None => PageHead {
            head: 0,
            written: 0,
            backup: 0,
            backup_lsn: 0,
        },
    }
}

/// A record names the page.
pub fn set_head(heads: &mut Vec<PageHead>, page: PageNo, lsn: Lsn)
    ensures items { heads.new.items ≡ at_page (with_head lsn) page heads.old.items }
    ensures room { vec_len heads.old < vec_capacity heads.old → vec_len heads.new < vec_capacity heads.new }
{
    if let Some(place) = place_of(heads.as_slice(), page) {
        let entry = &mut heads[place];
        entry.head = lsn;
    }
}

/// An image of the page was written.
pub fn set_written(heads: &mut Vec<PageHead>, page: PageNo, lsn: Lsn)
    ensures { heads.new.items ≡ at_page (with_written lsn) page heads.old.items }
{
    if let Some(place) = place_of(heads.as_slice(), page) {
        let entry = &mut heads[place];
        entry.written = lsn;
    }
}

/// A backup has the page.
fn set_backup(heads: &mut Vec<PageHead>, page: PageNo, backup: u64, lsn: Lsn)
    ensures { heads.new.items ≡ at_page (with_backup backup lsn) page heads.old.items }
{
    if let Some(place) = place_of(heads.as_slice(), page) {
        let entry = &mut heads[place];
        entry.backup = backup;
        entry.backup_lsn = lsn;
    }
}

/// A backup has these pages.
pub fn set_backups(heads: &mut Vec<PageHead>, backup: u64, pages: &[PageLsn])
    ensures { heads.new.items ≡ backed_up backup pages.now heads.old.items }
{
    let mut left = pages.len();
    while left > 0 {
        left -= 1;
        let page = &pages[left];
        set_backup(heads, page.page, backup, page.lsn);
    }
}

/// The data device was lost.
pub fn clear_written(heads: &mut Vec<PageHead>)
    ensures { heads.new.items ≡ map (with_written 0) heads.old.items }
{
    for entry in heads.iter_mut() {
        entry.written = 0;
    }
}

/// A record makes the next page.
pub fn add_page(heads: &mut Vec<PageHead>, lsn: Lsn)
    requires { vec_len heads.old < vec_capacity heads.old }
    ensures { heads.new.items ≡ heads.old.items ++ first_head lsn ∷ [] }
{
    let entry = PageHead {
        head: lsn,
        written: 0,
        backup: 0,
        backup_lsn: 0,
    };
    match heads.push(entry) {
        Ok(()) => {}
        Err(_) => unreachable!(),
    }
}

/// Makes room for the page that a record makes.
pub fn prepare(heads: &mut Vec<PageHead>, entry: &Record) -> Result<(), AllocError>
    ensures same { heads.new.items ≡ heads.old.items }
    ensures ready { OnOk result (HasPlace entry.now heads.new) }
    ensures kept { vec_len heads.old < vec_capacity heads.old → vec_len heads.new < vec_capacity heads.new }
{
    if makes_page(entry) {
        heads.reserve(1)?;
    }
    Ok(())
}

/// Whether a record makes a page.
fn makes_page(entry: &Record) -> bool
    ensures { result ≡ makes_page entry.now }
{
    matches!(
        entry,
        Record::Format(_) | Record::Split(_) | Record::Grow(_)
    )
}

/// One record more, with this LSN.
pub fn note(heads: &mut Vec<PageHead>, lsn: Lsn, entry: &Record)
    requires { HasPlace entry.now heads.old }
    ensures { heads.new.items ≡ heads_step lsn heads.old.items entry.now }
{
    match entry {
        Record::Format(_) => add_page(heads, lsn),
        Record::Write(write) => set_head(heads, write.page, lsn),
        Record::Apply(apply) => set_head(heads, apply.page, lsn),
        Record::Undo(undo) => set_head(heads, undo.page, lsn),
        Record::Split(split) => {
            set_head(heads, split.page, lsn);
            add_page(heads, lsn);
        }
        Record::Adopt(adopt) => {
            set_head(heads, adopt.parent, lsn);
            set_head(heads, adopt.fosterer, lsn);
        }
        Record::Grow(_) => {
            set_head(heads, 1, lsn);
            add_page(heads, lsn);
        }
        Record::Purge(purge) => set_head(heads, purge.page, lsn),
        Record::Written(written) => set_written(heads, written.page, written.lsn),
        Record::BackupDone(done) => set_backups(heads, done.backup, done.pages.as_slice()),
        Record::Lost(_) => clear_written(heads),
        _ => {}
    }
}
