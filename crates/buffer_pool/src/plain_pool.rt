//! The pool of one thread.
ghost use Rattle.std.specs.Prelude.{◌≡◌, ◌⊎◌, false, true, ℕ, None, IfErr, IfOk, IfSome, IsSome, OnErr, OnOk};
ghost use Rattle.media.specs.Cause.{HasCause, Rose};
ghost use Rattle.media.specs.Counted.{Armed};
ghost use Rattle.media.specs.Images.{SameImages};
ghost use Rattle.page_index.specs.Index.{home_of};
ghost use Rattle.page_ops.specs.Causes.{FailsToBring, FailsToReserve, MeetsNoEnd};
ghost use Rattle.page_ops.specs.Claims.{IsInRange, no_claims};
ghost use Rattle.page_ops.specs.Desks.{IsMade, KeepsFaults};
ghost use Rattle.page_ops.specs.Hands.{Hand};
ghost use Rattle.page_ops.specs.Seeing.{Upholds, is_upkeep, known};
ghost use Rattle.page_repair.specs.Images.{SameOthers, Spares};
ghost use Rattle.restart.specs.Plans.{Comes, IsNextAwaiting};
ghost use Rattle.buffer_pool.specs.Brings.{Brings, Renews};
ghost use Rattle.buffer_pool.specs.Repairs.{Repairs};
ghost use Rattle.buffer_pool.specs.Tables.{IsNextDirty, Loses, Stays, Stores, frame_of, is_dirty, is_full};
ghost use Rattle.buffer_pool.specs.Writes.{HasImageOf, WritesOut, is_written, no_faults};
ghost use Rattle.buffer_pool.specs.declared.frame.Frame.TheVariants.{Empty};

use crate::frames::Frames;
use crate::moving::{fetch, fetch_anew, store};
use front::Pass;
use media::{Failed, PageDevice};
use page_index::PageIndex;
use page_ops::{Entering, Held, Life, Pages, Rights, Taken};
use page_repair::{Images, OwnImages, Supply};
use restart::RestartPlan;
use std::alloc::Global;
use std::sync::Wait;
use store_model::{Fault, PageNo};
use wal_record::Entry;

/// A pool that one thread owns, over a data device and a supply of pages. It has a frame for each page, and one more for a
/// page to be made, so that nobody waits for a frame. It knows which pages await redo.
#[derive(Drop)]
pub struct PlainPool<I, S, N: Life> {
    images: I,
    /// What the pages come from that the device doesn't give; a vault may stand behind it.
    pub supply: S,
    frames: Frames<N>,
    plan: RestartPlan,
    out: u32,
    reserves: bool,
}

/// There was no memory for a pool. Here are its parts.
#[derive(Drop)]
pub struct PoolRefused<I, S> {
    pub images: I,
    pub supply: S,
}

impl<I, S, N: Life> PlainPool<I, S, N> {
    /// No page is in its frame, and none of those that await redo has come.
    pub fn new(
        alloc: Global,
        images: I,
        supply: S,
        index: PageIndex<N>,
        plan: RestartPlan,
    ) -> Result<PlainPool<I, S, N>, PoolRefused<I, S>>
        requires rights { (page : ℕ) → IfSome (home_of index page) IsInRange }
        ensures none { IfOk result (λ pool. (pool.out ≡ 0) × (pool.reserves ≡ false)) }
        ensures empty { IfOk result (λ pool. (page : ℕ) → frame_of pool.frames page ≡ Empty) }
        ensures index { IfOk result (λ pool. pool.frames.index ≡ index) }
        ensures parts { IfOk result (λ pool. (pool.images ≡ images) × (pool.supply ≡ supply) × (pool.plan ≡ plan)) }
        ensures refused { IfErr result (λ parts. (parts.images ≡ images) × (parts.supply ≡ supply)) }
    {
        match Frames::new(alloc, index) {
            Ok(frames) => Ok(PlainPool {
                images,
                supply,
                frames,
                plan,
                out: 0,
                reserves: false,
            }),
            Err(_) => Err(PoolRefused { images, supply }),
        }
    }

    /// The data device and the supply.
    pub fn into_parts(self) -> (I, S)
        ensures { (result.0 ≡ self.images) × (result.1 ≡ self.supply) }
    {
        let PlainPool { images, supply, .. } = self;
        (images, supply)
    }

    /// The pool over another supply, and the one that it had.
    pub fn resupplied<T>(self, supply: T) -> (PlainPool<I, T, N>, S)
        ensures pages { (result.0.frames ≡ self.frames) × (result.0.out ≡ self.out) × (result.0.reserves ≡ self.reserves) × (result.0.plan ≡ self.plan) }
        ensures parts { (result.0.images ≡ self.images) × (result.0.supply ≡ supply) × (result.1 ≡ self.supply) }
    {
        let PlainPool {
            images,
            supply: before,
            frames,
            plan,
            out,
            reserves,
        } = self;
        let pool = PlainPool {
            images,
            supply,
            frames,
            plan,
            out,
            reserves,
        };
        (pool, before)
    }

    /// The least page above this one that is dirty in its frame.
    pub fn next_dirty(&self, after: PageNo) -> Option<PageNo>
        ensures { IsNextDirty self.now.frames after result }
    {
        self.frames.next_dirty(after)
    }

    /// The least page above this one that awaits redo: its head in the opening log is above its written LSN, and it hasn't come
    /// since.
    pub fn next_redo(&self, after: PageNo) -> Option<PageNo>
        ensures { IsNextAwaiting self.now.plan after result }
    {
        self.plan.next(after)
    }
}

impl<I: Images<N>, S, N: Life> PlainPool<I, S, N> {
    /// Writes the page to the data device, if it is in its frame and dirty, once the log is durable up to its LSN. Where the
    /// device fails the page is dropped, and no answer tells of it. After a refusal each frame is as before.
    pub fn write_out<J: Entering<N>, R: Wait>(
        &mut self,
        rt: &R,
        alloc: Global,
        journal: &mut J,
        page: PageNo,
        pass: &mut Pass<Entry, N>,
    ) -> Result<(), Fault>
        ensures clean { OnOk result (is_dirty (frame_of self.new.frames page) ≡ false) }
        ensures stored { OnOk result (Stores page self.old.frames self.new.frames) }
        ensures dropped { OnOk result ((is_full (frame_of self.new.frames page) ≡ is_full (frame_of self.old.frames page)) ⊎ Rose (I.faults self.old.images) (I.faults self.new.images)) }
        ensures same { OnErr result (Stays self.old.frames self.new.frames) }
        ensures others { (self.new.out ≡ self.old.out) × (self.new.reserves ≡ self.old.reserves) × (self.new.supply ≡ self.old.supply) × (self.new.plan ≡ self.old.plan) }
        ensures image { I.tells → OnOk result (HasImageOf page (frame_of self.old.frames page) (frame_of self.new.frames page) (I.newest self.new.images page)) }
        ensures images { I.tells → SameOthers I.newest page self.old.images self.new.images }
        ensures writes { WritesOut N.opens N.entries N.session_entries page result self.old.frames self.new.frames (known (J.account journal.old) pass.old no_claims) (known (J.account journal.new) pass.new no_claims) }
        ensures entered { Upholds N.opens N.entries N.session_entries is_written (known (J.account journal.old) pass.old no_claims) (known (J.account journal.new) pass.new no_claims) }
        ensures open { OnOk result (MeetsNoEnd (J.account journal.old) (J.account journal.new)) }
        ensures refused { IfErr result (FailsToReserve N.opens N.log_faults N.made no_faults no_faults (J.account journal.old) (J.account journal.new) pass.new.log) }
    {
        store(
            rt,
            alloc,
            journal,
            &mut self.images,
            &mut self.frames,
            page,
            pass,
        )
    }

    /// The data device is lost, and an empty one takes its place. Each page in its frame is dropped, its right going home,
    /// and no page counts as written. After `Failed` that is so, too, and the old images may stay.
    pub fn lose<R: Wait>(&mut self, rt: &R) -> Result<(), Failed>
        requires none { self.old.out ≡ 0 }
        ensures lost { Loses self.old.frames self.new.frames }
        ensures empty { I.tells → OnOk result ((page : ℕ) → I.newest self.new.images page ≡ None) }
        ensures others { (self.new.out ≡ self.old.out) × (self.new.reserves ≡ self.old.reserves) × (self.new.supply ≡ self.old.supply) × (self.new.plan ≡ self.old.plan) }
        ensures cause { HasCause I.faults self.old.images self.new.images result }
    {
        self.frames.lose();
        self.images.replace(rt)
    }
}

impl<'a, D: PageDevice, S, N: Life> PlainPool<OwnImages<'a, D, N>, S, N> {
    /// Reads of the page from the data device fail verification until its next write. After `Failed` they may.
    pub fn spoil(&mut self, page: PageNo) -> Result<(), Failed>
        ensures damaged { D.tells → OnOk result (D.spoiled self.new.images page) }
        ensures others { (self.new.frames ≡ self.old.frames) × (self.new.out ≡ self.old.out) × (self.new.reserves ≡ self.old.reserves) × (self.new.supply ≡ self.old.supply) × (self.new.plan ≡ self.old.plan) }
        ensures same { D.tells → SameImages D.told D.newest self.old.images self.new.images }
        ensures cause { HasCause D.faults self.old.images self.new.images result }
    {
        self.images.spoil(page)
    }

    /// Arms the data device's fuse, which lets n more calls pass, or renews it.
    pub fn fuse(&mut self, n: Option<u64>)
        ensures others { (self.new.frames ≡ self.old.frames) × (self.new.out ≡ self.old.out) × (self.new.reserves ≡ self.old.reserves) × (self.new.supply ≡ self.old.supply) × (self.new.plan ≡ self.old.plan) }
        ensures same { D.tells → SameImages D.told D.newest self.old.images self.new.images }
        ensures fuse { Armed D.fuses D.passes D.refused D.own n self.old.images self.new.images }
    {
        self.images.fuse(n);
    }
}

impl<N: Life, J: Entering<N>, I: Images<N>, S: Supply<N, J>> Pages<N, J> for PlainPool<I, S, N> {
    ghost desk = { λ p. record { out = p.out; reserves = p.reserves; faults = S.faults p.supply } };

    fn out(&self) -> u32 {
        self.out
    }

    fn log_faults(&self) -> u64 {
        self.supply.log_faults()
    }

    fn vault_faults(&self) -> u64 {
        self.supply.vault_faults()
    }

    fn try_take<R: Wait>(&mut self, _rt: &R, page: PageNo) -> Taken<Held<N>> {
        let taken = self.frames.try_take(page);
        if let Taken::Page(_) = &taken {
            self.out += 1;
        }
        taken
    }

    fn wait_for<R: Wait>(&mut self, _rt: &R, _page: PageNo) {}

    fn bring<R: Wait>(
        &mut self,
        rt: &R,
        alloc: Global,
        journal: &mut J,
        page: PageNo,
        pass: &mut Pass<Entry, N>,
    ) -> Result<(), Fault>
        requires none { self.old.out ≡ 0 }
        requires made { IsMade N.opens pass.old.log page }
        ensures framed { OnOk result (is_full (frame_of self.new.frames page) ≡ true) }
        ensures brings { Brings N.opens N.entries N.session_entries page (I.faults self.old.images) (I.faults self.new.images) result self.old.frames self.new.frames (known (J.account journal.old) pass.old no_claims) (known (J.account journal.new) pass.new no_claims) }
        ensures spared { I.tells → Spares N.opens page pass.old.log pass.new.log I.newest self.old.images self.new.images }
        ensures came { OnOk result (Comes page self.old.plan self.new.plan) }
        ensures awaits { OnErr result (self.new.plan ≡ self.old.plan) }
        ensures out { (self.new.out ≡ 0) × (self.new.reserves ≡ self.old.reserves) }
        ensures faults { KeepsFaults (S.faults self.old.supply) (S.faults self.new.supply) }
        ensures entered { Upholds N.opens N.entries N.session_entries is_upkeep (known (J.account journal.old) pass.old no_claims) (known (J.account journal.new) pass.new no_claims) }
        ensures open { OnOk result (MeetsNoEnd (J.account journal.old) (J.account journal.new)) }
        ensures refused { IfErr result (FailsToBring N.opens N.log_faults N.made (S.faults self.old.supply) (S.faults self.new.supply) (J.account journal.old) (J.account journal.new) pass.new.log) }
    {
        fetch(
            rt,
            alloc,
            journal,
            &mut self.images,
            &mut self.supply,
            &mut self.frames,
            page,
            pass,
        )?;
        self.plan.came(page);
        Ok(())
    }

    fn renew<R: Wait>(
        &mut self,
        rt: &R,
        alloc: Global,
        journal: &mut J,
        held: &mut Option<Held<N>>,
        pass: &mut Pass<Entry, N>,
    ) -> Result<(), Fault>
        requires held { IsSome held.old }
        requires alone { self.old.out ≡ 1 }
        ensures held { held.new ≡ None }
        ensures renews { IfSome held.old (λ h. Renews h result self.old.frames self.new.frames) }
        ensures repairs { IfSome held.old (λ h. Repairs N.opens N.entries N.session_entries h.page false result (known (J.account journal.old) pass.old no_claims) (known (J.account journal.new) pass.new no_claims)) }
        ensures came { IfSome held.old (λ h. OnOk result (Comes h.page self.old.plan self.new.plan)) }
        ensures awaits { OnErr result (self.new.plan ≡ self.old.plan) }
        ensures images { self.new.images ≡ self.old.images }
        ensures out { (self.new.out ≡ 0) × (self.new.reserves ≡ self.old.reserves) }
        ensures faults { KeepsFaults (S.faults self.old.supply) (S.faults self.new.supply) }
        ensures entered { Upholds N.opens N.entries N.session_entries is_upkeep (known (J.account journal.old) pass.old no_claims) (known (J.account journal.new) pass.new no_claims) }
        ensures open { OnOk result (MeetsNoEnd (J.account journal.old) (J.account journal.new)) }
        ensures refused { IfErr result (FailsToBring N.opens N.log_faults N.made (S.faults self.old.supply) (S.faults self.new.supply) (J.account journal.old) (J.account journal.new) pass.new.log) }
    {
        let Some(held) = held.take() else {
            unreachable!()
        };
        let renewed = held.page;
        self.out -= 1;
        fetch_anew(
            rt,
            alloc,
            journal,
            &mut self.supply,
            &mut self.frames,
            held,
            pass,
        )?;
        self.plan.came(renewed);
        Ok(())
    }

    fn put_back<R: Wait>(&mut self, _rt: &R, held: &mut Option<Held<N>>) {
        let Some(held) = held.take() else {
            unreachable!()
        };
        self.frames.put(held);
        self.out -= 1;
    }

    #[tactic(auto, using(page_ops::proofs::Gaining::upheld, page_ops::proofs::Gaining::looked))]
    fn reserve_new<R: Wait>(
        &mut self,
        rt: &R,
        _alloc: Global,
        journal: &mut J,
        pass: &mut Pass<Entry, N>,
    ) -> Result<(), Fault> {
        journal.see(rt, &mut Rights::none(), pass);
        self.reserves = true;
        Ok(())
    }

    fn put_new<R: Wait>(&mut self, _rt: &R, held: &mut Option<Held<N>>) {
        let Some(held) = held.take() else {
            unreachable!()
        };
        self.frames.put(held);
        self.reserves = false;
    }

    fn drop_new<R: Wait>(&mut self, _rt: &R) {
        self.reserves = false;
    }
}
