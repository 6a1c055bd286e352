//! Where each page's right is, and what was written of the page last.
ghost use Rattle.std.specs.Prelude.{◌≡◌, ℕ, suc, ◌<◌, ◌≤◌, IfOk, IfSome, IfNone, Some, None};
ghost use Rattle.page_index.specs.Index.{home_of, written_of, limit_of, Forgets, IsIn, Rehomes, Notes};

use books::{BookNames, PageRight};
use std::alloc::Global;
use std::marker::Model;
use store_model::{Lsn, Memory, PageNo};

/// The home of each page's right and the page's written LSN, for the pages from 1 to a limit.
#[derive(Drop)]
pub struct PageIndex<N: BookNames> {
    homes: Vec<Option<PageRight<N>>>,
    written: Vec<Lsn>,
}

impl<N: BookNames> Model for PageIndex<N> {
    ghost use Rattle.page_index.specs.Index.{Index, IsKept};

    ghost Value = { Index };

    ghost view = { λ x. record { homes = x.homes.items; written = x.written.items } };

    ghost invariant = { λ x. IsKept record { homes = x.homes.items; written = x.written.items } };
}

impl<N: BookNames> PageIndex<N> {
    /// An index of the pages from 1 to the limit, whose rights are all out. No page is written.
    pub fn new(alloc: Global, limit: u32) -> Result<PageIndex<N>, Memory>
        ensures limit { IfOk result (λ index. limit_of index ≡ limit) }
        ensures out { IfOk result (λ index. (page : ℕ) → home_of index page ≡ None) }
        ensures written { IfOk result (λ index. (page : ℕ) → written_of index page ≡ 0) }
    {
        let mut homes = Vec::with_capacity(alloc, limit as usize)?;
        let mut written = Vec::with_capacity(alloc, limit as usize)?;
        for _ in 0..limit {
            homes.push(None)?;
            written.push(0)?;
        }
        Ok(PageIndex { homes, written })
    }

    /// How many pages it has.
    pub fn limit(&self) -> u32
        ensures { result ≡ limit_of self.now }
    {
        self.homes.len() as u32
    }

    /// The right to the page, if it is at home. It is then out.
    pub fn take_right(&mut self, page: PageNo) -> Option<PageRight<N>>
        ensures right { result ≡ home_of self.old page }
        ensures page { IfSome result (λ right. right.page ≡ page) }
        ensures out { Rehomes self.old self.new page None }
    {
        match self.place_of(page) {
            Some(place) => self.homes[place].take(),
            None => None,
        }
    }

    /// The right is then at home, in place of one that is there.
    pub fn give_right(&mut self, right: PageRight<N>)
        requires page { IsIn self.old right.page }
        ensures home { Rehomes self.old self.new right.page (Some right) }
    {
        let place = right.page() as usize - 1;
        self.homes[place] = Some(right);
    }

    /// The page is written up to this LSN.
    pub fn note_written(&mut self, page: PageNo, lsn: Lsn)
        requires page { IsIn self.old page }
        ensures { Notes self.old self.new page lsn }
    {
        self.written[page as usize - 1] = lsn;
    }

    /// The LSN of the page as it was last written, 0 before.
    pub fn written(&self, page: PageNo) -> Lsn
        ensures { result ≡ written_of self.now page }
    {
        match self.place_of(page) {
            Some(place) => self.written[place],
            None => 0,
        }
    }

    /// No page is written, as behind the loss of the device.
    pub fn forget_written(&mut self)
        ensures { Forgets self.old self.new }
    {
        for written in self.written.iter_mut() {
            *written = 0;
        }
    }

    /// Where the lists have what is the page's, if they have it.
    fn place_of(&self, page: PageNo) -> Option<usize>
        ensures inside { IfSome result (λ place. (page ≡ suc place) × (place < limit_of self.now)) }
        ensures outside { IfNone result (1 ≤ page → limit_of self.now < page) }
    {
        let place = (page as usize).checked_sub(1)?;
        if place < self.homes.len() {
            Some(place)
        } else {
            None
        }
    }
}
