//! Pages in frames, or in hand.
ghost use Rattle.std.specs.Prelude.{◌≡◌, ◌<◌, ◌≤◌, ◌-◌, length, true, Some, None, IfSome, IfNone, IsSomeAnd, slice_index_or};
ghost use Rattle.page_ops.specs.Takes.{IfPage};
ghost use Rattle.small_stores.specs.Tables.{IsIn, Takes, framed, with_frame};

use page_ops::{Held, Life, Taken};
use std::marker::Model;
use store_model::PageNo;

/// The pages of a small store, each in its frame or in hand. There is no device.
#[derive(Drop)]
pub struct Frames<N: Life> {
    frames: Vec<Option<Held<N>>>,
}

impl<N: Life> Model for Frames<N> {
    ghost use Rattle.small_stores.specs.Tables.{Table};

    ghost Value = { Table };

    ghost view = { λ f. f.frames.items };
}

impl<N: Life> Frames<N> {
    /// The pages in frames, from page 1 on.
    pub fn new(frames: Vec<Option<Held<N>>>) -> Frames<N>
        ensures { result ≡ frames.items }
    {
        Frames { frames }
    }

    /// Where the page has its place, if it has one.
    fn place_of(&self, page: PageNo) -> Option<usize>
        ensures inside { IfSome result (λ place. (place ≡ page - 1) × (place < length self.now) × (1 ≤ page)) }
        ensures outside { IfNone result (IsIn self.now page → ⊥) }
    {
        let place = (page as usize).checked_sub(1)?;
        if place < self.frames.len() {
            Some(place)
        } else {
            None
        }
    }

    /// Whether the page is in its frame.
    fn is_framed(&self, place: usize, page: PageNo) -> bool
        requires { place < length self.now }
        ensures { result ≡ true → IsSomeAnd (slice_index_or self.now place None) (λ held. held.page ≡ page) }
    {
        match &self.frames[place] {
            Some(held) => held.page == page,
            None => false,
        }
    }

    /// The page, if it is in its frame. One thread waits for no page that it has in hand, so any other one is away.
    pub fn try_take(&mut self, page: PageNo) -> Taken<Held<N>>
        ensures page { IfPage result (λ held. held.page ≡ page) }
        ensures taken { Takes self.old page self.new result }
    {
        let Some(place) = self.place_of(page) else {
            return Taken::Away;
        };
        if !self.is_framed(place, page) {
            return Taken::Away;
        }
        let Some(held) = self.frames[place].take() else {
            unreachable!()
        };
        Taken::Page(held)
    }

    /// The page is in its frame again, if the table has a place for it.
    pub fn put_back(&mut self, held: Held<N>)
        ensures back { IsIn self.old held.page → self.new ≡ with_frame self.old held.page (Some held) }
    {
        if let Some(place) = self.place_of(held.page) {
            self.frames[place] = Some(held);
        }
    }
}
