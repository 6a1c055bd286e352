//! Which pages await redo.
ghost use Rattle.std.specs.Prelude.{◌≡◌, ◌<◌, ◌≤◌, suc, length, map, IfOk, IfSome, IfNone};
ghost use Rattle.restart.specs.Plans.{awaits, is_behind, Comes, IsNextAwaiting};

use crate::flags::{clear_flag, flag, next_flag, no_flags, set_flag};
use std::alloc::Global;
use std::marker::Model;
use store_model::{Memory, PageNo};
use wal_record::Analysis;

/// The pages that await redo, a bit for each page that the log had made.
#[derive(Drop)]
pub struct RestartPlan {
    words: Vec<u64>,
    pages: PageNo,
}

impl Model for RestartPlan {
    ghost use Rattle.std.specs.Prelude.{◌*◌, ◌≤◌, length, List, Bool};
    ghost use Rattle.restart.specs.Plans.{flags};

    ghost Value = { List Bool };

    ghost view = { λ p. flags p.pages p.words.items };

    ghost invariant = { λ p. p.pages ≤ 64 * length p.words.items };
}

impl RestartPlan {
    /// The plan of an opening: the pages with a record behind their written image await redo.
    pub fn new(alloc: Global, analysis: &Analysis) -> Result<RestartPlan, Memory>
        ensures { IfOk result (λ p. p ≡ map is_behind analysis.now.heads) }
    {
        let heads = analysis.heads.as_slice();
        let Ok(pages) = PageNo::try_from(heads.len()) else {
            return Err(Memory);
        };
        let mut words = no_flags(alloc, heads.len())?;
        for (place, head) in heads.iter().enumerate() {
            if head.written < head.head {
                set_flag(words.as_mut_slice(), place);
            }
        }
        Ok(RestartPlan { words, pages })
    }

    /// Whether the page awaits redo. A page that the log hadn't made doesn't.
    pub fn awaits_redo(&self, page: PageNo) -> bool
        ensures { result ≡ awaits self.now page }
    {
        match self.place_of(page) {
            Some(place) => flag(self.words.as_slice(), place),
            None => false,
        }
    }

    /// The page has come: it awaits redo no more.
    pub fn came(&mut self, page: PageNo)
        ensures { Comes page self.old self.new }
    {
        if let Some(place) = self.place_of(page) {
            clear_flag(self.words.as_mut_slice(), place);
        }
    }

    /// The least page above this one that awaits redo.
    pub fn next(&self, after: PageNo) -> Option<PageNo>
        ensures { IsNextAwaiting self.now after result }
    {
        let place = next_flag(self.words.as_slice(), after as usize, self.pages as usize)?;
        Some(place as PageNo + 1)
    }

    /// Where the plan has the page, if it has it.
    fn place_of(&self, page: PageNo) -> Option<usize>
        ensures page { IfSome result (λ place. page ≡ suc place) }
        ensures inside { IfSome result (λ place. place < length self.now) }
        ensures outside { IfNone result (1 ≤ page → length self.now < page) }
    {
        let place = (page as usize).checked_sub(1)?;
        if place < self.pages as usize {
            Some(place)
        } else {
            None
        }
    }
}
