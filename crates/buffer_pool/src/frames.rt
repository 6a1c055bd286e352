//! The frames of a pool, and the rights to the pages that aren't in them.
ghost use Rattle.std.specs.Prelude.{◌≡◌, ◌<◌, ◌≤◌, ℕ, suc, Some, None, IfOk, IfSome, IfNone, length};
ghost use Rattle.page_index.specs.Index.{home_of, written_of};
ghost use Rattle.page_ops.specs.Claims.{IsInRange};
ghost use Rattle.page_ops.specs.Takes.{IfPage};
ghost use Rattle.buffer_pool.specs.Tables.{Calls, Drops, HasFrame, IsNextDirty, Loses, PutsIn, SendsHome, Stays, Takes, frame_of, is_dirty, is_full};
ghost use Rattle.buffer_pool.specs.declared.frame.Frame.TheVariants.{Empty};

use crate::dropping::into_right;
use crate::frame::Frame;
use books::PageRight;
use page_index::PageIndex;
use page_ops::{Held, Life, Taken};
use std::alloc::Global;
use std::marker::Model;
use std::mem;
use store_model::{Lsn, Memory, PageNo};

/// A frame for each page of the index: the page is there, or its frame is kept for it while it is in somebody's hand or
/// on its way, or the frame is empty and the right to the page at home in the index. It is the state of a pool without its
/// device, a plain value that threads may share under a lock.
#[derive(Drop)]
pub struct Frames<N: Life> {
    frames: Vec<Frame<Held<N>>>,
    index: PageIndex<N>,
}

impl<N: Life> Model for Frames<N> {
    ghost use Rattle.buffer_pool.specs.Tables.{IsKept, Table};

    ghost Value = { Table };

    ghost view = { λ f. record { frames = f.frames.items; index = f.index } };

    ghost invariant = { λ f. IsKept record { frames = f.frames.items; index = f.index } };
}

impl<N: Life> Frames<N> {
    /// Empty frames for the pages of this index.
    pub fn new(alloc: Global, index: PageIndex<N>) -> Result<Frames<N>, Memory>
        requires rights { (page : ℕ) → IfSome (home_of index page) IsInRange }
        ensures index { IfOk result (λ t. t.index ≡ index) }
        ensures empty { IfOk result (λ t. (page : ℕ) → frame_of t page ≡ Empty) }
    {
        let limit = index.limit();
        let mut frames = Vec::with_capacity(alloc, limit as usize)?;
        for _ in 0..limit {
            frames.push(Frame::Empty)?;
        }
        Ok(Frames { frames, index })
    }

    /// The page, if it is in its frame, which is then kept for it.
    pub fn try_take(&mut self, page: PageNo) -> Taken<Held<N>>
        ensures taken { Takes page self.old self.new result }
        ensures page { IfPage result (λ held. held.page ≡ page) }
        ensures inside { IfPage result (λ held. HasFrame self.old page) }
    {
        let Some(place) = self.place_of(page) else {
            return Taken::Away;
        };
        match &self.frames[place] {
            Frame::Full(_) => {}
            Frame::Kept => return Taken::Busy,
            Frame::Empty => return Taken::Away,
        }
        let Frame::Full(held) = mem::replace(&mut self.frames[place], Frame::Kept) else {
            unreachable!()
        };
        Taken::Page(held)
    }

    /// The page is in its frame, if there is one for it.
    pub fn put(&mut self, held: Held<N>)
        ensures { PutsIn held self.old self.new }
    {
        if let Some(place) = self.place_of(held.page) {
            self.frames[place] = Frame::Full(held);
        }
    }

    /// The right to a page whose frame is empty, if it is at home. The frame is then kept for the page.
    pub fn call_out(&mut self, page: PageNo) -> Option<PageRight<N>>
        ensures called { Calls page self.old self.new result }
        ensures right { IfSome result (λ right. (right.page ≡ page) × IsInRange right × HasFrame self.new page) }
    {
        let place = self.place_of(page)?;
        let Frame::Empty = &self.frames[place] else {
            return None;
        };
        let right = self.index.take_right(page)?;
        self.frames[place] = Frame::Kept;
        Some(right)
    }

    /// The right to the page is at home and its frame empty, if there is one for it.
    pub fn send_home(&mut self, right: PageRight<N>)
        requires range { IsInRange right }
        ensures { SendsHome right self.old self.new }
    {
        if let Some(place) = self.place_of(right.page()) {
            self.frames[place] = Frame::Empty;
            self.index.give_right(right);
        }
    }

    /// The page was written as this LSN, where the pool has a frame for it.
    pub fn note_written(&mut self, page: PageNo, lsn: Lsn)
        ensures same { Stays self.old self.new }
        ensures written { HasFrame self.old page → written_of self.new.index page ≡ lsn }
    {
        if self.place_of(page).is_some() {
            self.index.note_written(page, lsn);
        }
    }

    /// Whether the page is in its frame.
    pub fn is_full(&self, page: PageNo) -> bool
        ensures { result ≡ is_full (frame_of self.now page) }
    {
        match self.place_of(page) {
            Some(place) => match &self.frames[place] {
                Frame::Full(_) => true,
                _ => false,
            },
            None => false,
        }
    }

    /// Whether the page is in its frame, and the data device lacks it.
    pub fn is_dirty(&self, page: PageNo) -> bool
        ensures { result ≡ is_dirty (frame_of self.now page) }
    {
        match self.place_of(page) {
            Some(place) => match &self.frames[place] {
                Frame::Full(held) => held.dirty,
                _ => false,
            },
            None => false,
        }
    }

    /// The least page above this one that is in its frame and that the data device lacks.
    pub fn next_dirty(&self, after: PageNo) -> Option<PageNo>
        ensures { IsNextDirty self.now after result }
    {
        let mut page = after;
        while page < self.index.limit() {
            page += 1;
            if self.is_dirty(page) {
                return Some(page);
            }
        }
        None
    }

    /// Each page in its frame is dropped, its right going home, and no page counts as written.
    pub fn lose(&mut self)
        ensures { Loses self.old self.new }
    {
        let mut page = 0;
        while page < self.index.limit() {
            page += 1;
            self.drop_page(page);
        }
        self.index.forget_written();
    }

    /// The page is dropped, if it is in its frame, and its right is at home.
    fn drop_page(&mut self, page: PageNo)
        ensures { Drops page self.old self.new }
    {
        if let Taken::Page(held) = self.try_take(page) {
            self.send_home(into_right(held));
        }
    }

    /// Where the list has the page's frame, if it has one.
    fn place_of(&self, page: PageNo) -> Option<usize>
        ensures inside { IfSome result (λ place. (page ≡ suc place) × (place < length self.now.frames) × HasFrame self.now page) }
        ensures outside { IfNone result (1 ≤ page → length self.now.frames < page) }
    {
        let place = (page as usize).checked_sub(1)?;
        if place < self.frames.len() {
            Some(place)
        } else {
            None
        }
    }
}
