//! Pages that one thread owns.
ghost use Rattle.std.specs.Prelude.{◌≡◌};

use crate::frames::Frames;
use foster_tree::see_page;
use front::Pass;
use page_ops::{Entering, Held, Life, Pages, Rights, Taken};
use std::alloc::Global;
use std::sync::Wait;
use store_model::{Fault, PageNo};
use wal_record::Entry;

/// The pages of a store that one thread owns.
#[derive(Drop)]
pub struct OwnPages<N: Life> {
    frames: Frames<N>,
    out: u32,
    reserves: bool,
    /// How many frames may be asked for until one is refused, and that one; 0 where none is.
    refused: u32,
}

impl<N: Life> OwnPages<N> {
    /// None of the pages is in hand.
    pub fn new(frames: Frames<N>) -> OwnPages<N>
        ensures { result.out ≡ 0 }
    {
        OwnPages {
            frames,
            out: 0,
            reserves: false,
            refused: 0,
        }
    }

    /// Of the frames that are asked for from now on, the one of this number is refused, as if there were no memory for it.
    pub fn refuse(&mut self, number: u32)
        ensures out { self.new.out ≡ self.old.out }
    {
        self.refused = number;
    }
}

impl<N: Life, J: Entering<N>> Pages<N, J> for OwnPages<N> {
    ghost desk = { λ p. record { out = p.out; reserves = p.reserves; faults = record { log = 0; vault = 0 } } };

    fn out(&self) -> u32 {
        self.out
    }

    fn log_faults(&self) -> u64 {
        0
    }

    fn vault_faults(&self) -> u64 {
        0
    }

    fn try_take<R: Wait>(&mut self, _rt: &R, page: PageNo) -> Taken<Held<N>> {
        let taken = self.frames.try_take(page);
        if let Taken::Page(_) = &taken {
            self.out += 1;
        }
        taken
    }

    fn wait_for<R: Wait>(&mut self, _rt: &R, _page: PageNo) {}

    #[tactic(auto, using(page_ops::proofs::Gaining::upheld, page_ops::proofs::Gaining::looked))]
    fn bring<R: Wait>(
        &mut self,
        rt: &R,
        _alloc: Global,
        journal: &mut J,
        _page: PageNo,
        pass: &mut Pass<Entry, N>,
    ) -> Result<(), Fault> {
        journal.see(rt, &mut Rights::none(), pass);
        Err(Fault::Memory)
    }

    #[tactic(auto, using(page_ops::proofs::Gaining::upheld, page_ops::proofs::Gaining::looked))]
    fn renew<R: Wait>(
        &mut self,
        rt: &R,
        _alloc: Global,
        journal: &mut J,
        held: &mut Option<Held<N>>,
        pass: &mut Pass<Entry, N>,
    ) -> Result<(), Fault> {
        let Some(mut held) = held.take() else {
            unreachable!()
        };
        see_page(rt, journal, &mut held, pass);
        self.frames.put_back(held);
        self.out -= 1;
        Ok(())
    }

    fn put_back<R: Wait>(&mut self, _rt: &R, held: &mut Option<Held<N>>) {
        let Some(held) = held.take() else {
            unreachable!()
        };
        self.frames.put_back(held);
        self.out -= 1;
    }

    #[tactic(auto, using(page_ops::proofs::Gaining::upheld, page_ops::proofs::Gaining::looked))]
    fn reserve_new<R: Wait>(
        &mut self,
        rt: &R,
        _alloc: Global,
        journal: &mut J,
        pass: &mut Pass<Entry, N>,
    ) -> Result<(), Fault> {
        journal.see(rt, &mut Rights::none(), pass);
        let refused = self.refused;
        self.refused = refused.saturating_sub(1);
        if refused == 1 {
            return Err(Fault::Memory);
        }
        self.reserves = true;
        Ok(())
    }

    fn put_new<R: Wait>(&mut self, _rt: &R, held: &mut Option<Held<N>>) {
        let Some(held) = held.take() else {
            unreachable!()
        };
        self.frames.put_back(held);
        self.reserves = false;
    }

    fn drop_new<R: Wait>(&mut self, _rt: &R) {
        self.reserves = false;
    }
}
