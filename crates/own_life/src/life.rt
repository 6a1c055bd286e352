//! A life that one thread owns.
ghost use Rattle.std.specs.Prelude.{◌≡◌, ◌⊎◌, ◌==◌, ◌<◌, ◌≤◌, ◌-◌, ◌^◌, ℕ, None, Some, List, ◌++◌, Err, IfErr, IfOk, IfSome, OnErr, OnOk, false, true, length, min, position};
ghost use Rattle.std.specs.Option.{option_map};
ghost use Rattle.command_laws.specs.Names.{Active, active_of, is_active};
ghost use Rattle.engine.specs.Applies.{GivesNone};
ghost use Rattle.engine.specs.Requests.{IsRefusal, lock_of};
ghost use Rattle.engine.specs.Writes.{LacksRoom};
ghost use Rattle.journal.specs.State.{ArmsDisk};
ghost use Rattle.journal.specs.Stops.{IsDurableUpto};
ghost use Rattle.log_laws.specs.Right.{IsRight};
ghost use Rattle.page_ops.specs.Outcomes.{IsConflict, IsSurvey};
ghost use Rattle.store_model.specs.declared.fault.Fault.TheVariants as faults;
ghost use Rattle.store_model.specs.declared.limits.TheConstants.{MOST_ACTIVE};
ghost use Rattle.wal_record.specs.declared.entry.Entry.{Entry};
ghost use Rattle.wal_record.specs.declared.record.Record.{Record};
ghost use Rattle.store_life.specs.SoFar.{left_by};
ghost use Rattle.store_life.specs.Turns.{Asks, EndsBy, IsCheckpointed, IsLost, IsTold};
ghost use Rattle.own_life.specs.Kept.{without_crowd};
ghost use Rattle.store_pages.specs.Pages.{IsEmptied, IsIdle, Lacks};
ghost use Rattle.own_life.specs.State.{AreLeft, BeginsAs, FailsToAnswer, FailsToBegin, FailsToCommit, FailsToFlush, FailsOver, FailsToLook, GoesOn, IsCommitted, name_by};

use crate::leaving::leave_vault;
use crate::seeing::see_whole;
use engine::Answered;
use media::{Disk, PageDevice, Vault};
use own_journal::OwnJournal;
use page_ops::{Committed, Life, Survey};
use script::Name;
use std::alloc::Global;
use std::marker::Model;
use std::sync::Wait;
use store_life::StoreLife;
use store_model::{Fault, Lsn, MOST_ACTIVE, Pos, Request, TxId};
use store_pages::StorePages;

/// A life with its journal and its named transactions. Contracts see it as its history, how much of the log is known to be durable,
/// its active names, its end, and what the log disk tells of its calls. Its pages are lent to each call that wants them.
#[derive(Drop)]
pub struct OwnLife<'a, L: Disk, N: Life> {
    pub(crate) journal: OwnJournal<'a, L, N>,
    pub(crate) life: StoreLife<N>,
}

impl<'a, L: Disk, N: Life> Model for OwnLife<'a, L, N> {
    ghost use Rattle.own_journal.specs.Told.{told};
    ghost use Rattle.store_life.specs.SoFar.{actives};
    ghost use Rattle.own_life.specs.Kept.{IsKept};
    ghost use Rattle.own_life.specs.State.{LifeState};

    ghost Value = { LifeState };

    ghost view = { λ l. record { history = l.life.pass.log; durable = l.life.pass.durable; active = actives l.life.named.items; ended = l.journal.counts.ended; calls = l.journal.journal.calls } };

    ghost invariant = { λ l. IsKept N.opens N.entries N.log_faults (told l.journal.counts l.journal.journal.calls) l.journal.journal.history l.life };
}

impl<'a, L: Disk, N: Life> OwnLife<'a, L, N> {
    /// How many transactions are active.
    pub fn active(&self) -> usize
        ensures { result ≡ length self.now.active }
    {
        self.life.named.len()
    }

    /// Whether a transaction of this name is active.
    pub fn is_active(&self, name: &Name) -> bool
        ensures { result ≡ is_active self.now.active name.now }
    {
        self.life.is_active(name)
    }

    /// The name of an active transaction, the first one with this number.
    pub fn name_of(&self, tx: TxId) -> Option<&Name>
        ensures { option_map (λ name. name.now) result ≡ name_by tx self.now.active }
    {
        match place_of(&self.life, tx) {
            Some(place) => {
                let named = &self.life.named[place];
                Some(&named.name)
            }
            None => None,
        }
    }

    /// The LSN up to which the log was durable as the life ended, if it has ended.
    pub fn ended(&self) -> Option<Lsn>
        ensures end { result ≡ self.now.ended }
        ensures durable { (opening : List Record) → N.opens opening → IfSome result (IsDurableUpto opening self.now.history) }
    {
        let _ = self.journal.end();
        self.journal.counts.ended()
    }

    /// The history so far is legal, its committed transactions are serial, and a stop leaves the first of them. So it was at each
    /// entry before.
    pub fn look(&self)
        ensures right { (opening : List Record) → N.opens opening → IsRight opening self.now.history }
        ensures before { (opening : List Record) (first rest : List Entry) → N.opens opening → self.now.history ≡ first ++ rest → IsRight opening first }
    {
        self.life.look(&self.journal);
    }

    /// Begins a transaction of a name that isn't active. `TooManyActive` exactly where 64 names are active. After a refusal
    /// nothing was entered.
    pub fn begin<R: Wait>(&mut self, rt: &R, alloc: Global, name: Name) -> Result<TxId, Fault>
        requires open { self.old.ended ≡ None }
        requires free { is_active self.old.active name ≡ false }
        ensures begins { BeginsAs name result self.old self.new }
        ensures few { OnOk result (length self.old.active < MOST_ACTIVE) }
        ensures crowd { result ≡ Err faults.TooManyActive → length self.old.active ≡ MOST_ACTIVE }
        ensures many { length self.old.active ≡ MOST_ACTIVE → result ≡ Err faults.TooManyActive }
        ensures goes { OnOk result (GoesOn self.old self.new) }
        ensures refused { IfErr result (FailsToBegin self.old self.new) }
    {
        if self.life.named.len() >= MOST_ACTIVE as usize {
            return Err(Fault::TooManyActive);
        }
        let OwnLife { journal, life } = self;
        let begun = life.begin(rt, alloc, journal, name);
        see_whole(journal, life);
        uncrowded(begun)
    }

    /// Asks for the active transaction of this name.
    pub fn ask<D: PageDevice, V: Vault, R: Wait>(
        &mut self,
        rt: &R,
        alloc: Global,
        pages: &mut StorePages<'a, D, V, N>,
        name: &Name,
        request: Request,
    ) -> Result<Answered, Fault>
        requires idle { IsIdle pages.old.pool.out pages.old.pool.reserves }
        requires open { self.old.ended ≡ None }
        requires active { is_active self.old.active name.now ≡ true }
        ensures idle { IsIdle pages.new.pool.out pages.new.pool.reserves }
        ensures asks { (a : Active) → active_of self.old.active name.now ≡ Some a → Asks N.opens a.session a.tx request result self.old.history self.new.history }
        ensures told { (a : Active) → active_of self.old.active name.now ≡ Some a → IfOk result (IsTold N.opens a.session a.tx request self.new.history) }
        ensures names { self.new.active ≡ self.old.active }
        ensures conflict { IfErr result (IsConflict N.opens self.new.history (lock_of request)) }
        ensures full { IfErr result (LacksRoom N.opens self.new.history) }
        ensures gives_none { IfErr result (GivesNone N.opens request self.new.history) }
        ensures goes { OnOk result (GoesOn self.old self.new) }
        ensures counted { pages.old.pool.supply.bases.faults ≤ pages.new.pool.supply.bases.faults }
        ensures refused { IfErr result (FailsToAnswer (IsRefusal request) N.opens pages.old.pool.supply.bases.faults pages.new.pool.supply.bases.faults self.old self.new) }
    {
        let OwnLife { journal, life } = self;
        let answered = pages.ask(rt, alloc, journal, life, name, request);
        see_whole(journal, life);
        answered
    }

    /// Commits the active transaction of this name, which is active no more. It takes no memory. Where the log fails the name
    /// stays active; at most its Commit was entered then, unacknowledged.
    pub fn commit<R: Wait>(&mut self, rt: &R, name: &Name) -> Result<Committed, Fault>
        requires open { self.old.ended ≡ None }
        requires active { is_active self.old.active name.now ≡ true }
        ensures commits { (a : Active) → active_of self.old.active name.now ≡ Some a → IsCommitted N.opens a.session a.tx result self.old.history self.new.history }
        ensures names { self.new.active ≡ left_by result self.old.active name.now }
        ensures goes { OnOk result (GoesOn self.old self.new) }
        ensures refused { IfErr result (FailsToCommit N.opens self.old self.new) }
    {
        let OwnLife { journal, life } = self;
        let committed = life.commit(rt, journal, name);
        see_whole(journal, life);
        committed
    }

    /// Undoes the active transaction of this name and ends it: it is active no more. After a refusal what was undone stays so,
    /// the transaction has no End yet, and the name stays active.
    pub fn abort<D: PageDevice, V: Vault, R: Wait>(
        &mut self,
        rt: &R,
        alloc: Global,
        pages: &mut StorePages<'a, D, V, N>,
        name: &Name,
    ) -> Result<Pos, Fault>
        requires idle { IsIdle pages.old.pool.out pages.old.pool.reserves }
        requires open { self.old.ended ≡ None }
        requires active { is_active self.old.active name.now ≡ true }
        ensures idle { IsIdle pages.new.pool.out pages.new.pool.reserves }
        ensures aborts { (a : Active) → active_of self.old.active name.now ≡ Some a → EndsBy N.opens a.tx result self.old.history self.new.history }
        ensures names { self.new.active ≡ left_by result self.old.active name.now }
        ensures goes { OnOk result (GoesOn self.old self.new) }
        ensures counted { pages.old.pool.supply.bases.faults ≤ pages.new.pool.supply.bases.faults }
        ensures refused { IfErr result (FailsOver N.opens pages.old.pool.supply.bases.faults pages.new.pool.supply.bases.faults self.old self.new) }
    {
        let OwnLife { journal, life } = self;
        let ended = pages.abort(rt, alloc, journal, life, name);
        see_whole(journal, life);
        ended
    }

    /// Takes a Checkpoint, makes the log durable up to it, and gives its LSN.
    pub fn checkpoint<R: Wait>(&mut self, rt: &R, alloc: Global) -> Result<Lsn, Fault>
        requires open { self.old.ended ≡ None }
        ensures entered { IsCheckpointed result self.old.history self.new.history }
        ensures flushed { IfOk result (λ lsn. (opening : List Record) → N.opens opening → lsn ≤ self.new.durable) }
        ensures names { self.new.active ≡ self.old.active }
        ensures goes { OnOk result (GoesOn self.old self.new) }
        ensures refused { IfErr result (FailsToFlush N.opens self.old self.new) }
    {
        let OwnLife { journal, life } = self;
        let taken = life.checkpoint(rt, alloc, journal);
        see_whole(journal, life);
        taken
    }

    /// The data device is lost, and an empty one takes its place. The log says so first, and is made durable up to that; gives the
    /// LSN of that record. From then on a page is restored from the log as it is wanted, its whole segment with it. Where the log
    /// doesn't say so, the device stays as it is.
    pub fn lose<D: PageDevice, V: Vault, R: Wait>(
        &mut self,
        rt: &R,
        alloc: Global,
        pages: &mut StorePages<'a, D, V, N>,
    ) -> Result<Lsn, Fault>
        requires idle { IsIdle pages.old.pool.out pages.old.pool.reserves }
        requires open { self.old.ended ≡ None }
        ensures idle { IsIdle pages.new.pool.out pages.new.pool.reserves }
        ensures entered { IsLost result self.old.history self.new.history }
        ensures flushed { IfOk result (λ lsn. (opening : List Record) → N.opens opening → lsn ≤ self.new.durable) }
        ensures clean { OnOk result ((page : ℕ) → Lacks pages.new.pool.frames page → ⊥) }
        ensures empty { D.tells → OnOk result (IsEmptied D.newest D.faults pages.old.pool.images pages.new.pool.images) }
        ensures same { OnErr result (pages.new ≡ pages.old) }
        ensures names { self.new.active ≡ self.old.active }
        ensures goes { OnOk result (GoesOn self.old self.new) }
        ensures refused { IfErr result (FailsToFlush N.opens self.old self.new) }
    {
        let OwnLife { journal, life } = self;
        let marked = life.mark_lost(rt, alloc, journal);
        see_whole(journal, life);
        if marked.is_ok() {
            pages.lose(rt);
        }
        marked
    }

    /// What the journal knows of the log and of the life. Nothing is entered.
    pub fn survey<R: Wait>(&mut self, rt: &R, alloc: Global) -> Result<Survey, Fault>
        requires open { self.old.ended ≡ None }
        ensures same { (self.new.history ≡ self.old.history) × (self.new.active ≡ self.old.active) }
        ensures survey { IfOk result (λ x. (durable : ℕ) × IsSurvey N.opens (record { log = self.new.history; durable = durable }) x) }
        ensures goes { OnOk result (GoesOn self.old self.new) }
        ensures refused { IfErr result (FailsToLook self.old self.new) }
    {
        let OwnLife { journal, life } = self;
        let known = life.survey(rt, alloc, journal);
        see_whole(journal, life);
        known
    }

    /// Arms the log disk's fuse, which lets n more calls pass, or renews it.
    pub fn fuse(&mut self, n: Option<u64>)
        ensures same { (self.new.history ≡ self.old.history) × (self.new.durable ≡ self.old.durable) × (self.new.active ≡ self.old.active) × (self.new.ended ≡ self.old.ended) }
        ensures calls { ArmsDisk L.fuses n self.old.calls self.new.calls }
    {
        self.journal.fuse(n);
    }

    /// How many calls the log disk's fuse has refused.
    pub fn refused(&self) -> u64
        ensures { result ≡ min self.now.calls.refused (2 ^ 64 - 1) }
    {
        self.journal.refused()
    }

    /// The life has stopped: its log disk, its data device and its vault, as they are. What the log disk keeps, and what it keeps
    /// after a crash that comes now, stands for a log that a stop may leave of the life, each image of the data device is made of
    /// that log, and each object that the life's log names is synced in the vault.
    pub fn into_devices<D: PageDevice, V: Vault>(self, pages: StorePages<'a, D, V, N>) -> (L, D, V)
        ensures left { AreLeft L.Disk D.PageDevice V.Vault N.opens self.entry result.0 result.1 result.2 }
    {
        let OwnLife {
            mut journal,
            mut life,
        } = self;
        let (device, objects) = pages.into_parts(&mut life.pass);
        let vault = leave_vault(objects, &mut journal, &mut life.pass);
        let log = journal.into_device(&mut life.pass);
        (log, device, vault)
    }
}

/// Where the first active transaction with this number stands.
fn place_of<N: Life>(life: &StoreLife<N>, tx: TxId) -> Option<usize>
    ensures { result ≡ position (λ named. named.session.claim.tx == tx) life.now.named.items }
{
    life.named
        .iter()
        .position(|named| named.session.transaction() == tx)
}

/// Fewer names are active than may be.
fn uncrowded<T>(answer: Result<T, Fault>) -> Result<T, Fault>
    ensures { result ≡ without_crowd answer }
{
    match answer {
        Err(Fault::TooManyActive) => Err(Fault::Memory),
        other => other,
    }
}
