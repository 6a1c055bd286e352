//! The history of a life of which no opening log is known and in which nobody has a session.
ghost use Rattle.std.specs.Prelude.{◌≡◌, ◌+◌, ◌<◌, ◌≤◌, ◌^◌, List, [], ◌∷◌, ◌++◌, length, None, Some, IfNone, IfSome};
ghost use mathlib.Core.List.{IsPrefix};
ghost use Rattle.wal_record.specs.declared.entry.Entry.{Entry};
ghost use Rattle.wal_record.specs.declared.record.Record.{Record};
ghost use Rattle.page_ops.specs.Causes.{IsOpen, IsUntold};
ghost use Rattle.wal_record.specs.Legal.{untold};
ghost use Rattle.page_ops.specs.Seeing.{Enters, HasTotals, Looks, known};
ghost use Rattle.untold_journal.specs.Upkeep.{IsAloneIn, IsUpkeep};

use crate::counts::Counts;
use books::{Book, MaintBook, SessionBook};
use front::{Added, Board, Front, Pass};
use life_history::MOST_ENTRIES;
use page_ops::{Entries, Ground, Group, Life, Rights, SessionEntries};
use std::marker::{Brand, Model};
use std::sync::ledger;
use store_model::Lsn;
use wal_record::{Entry, Record, Restored, Written};

/// The history, to which only what the upkeep of pages enters is added. Contracts see it as its entries.
#[derive(Drop)]
pub struct Untold<'a, N: Life> {
    ground: &'a Ground<N>,
    front: Front<Entry, N>,
    sessions: Book<SessionBook<N>>,
    maint: Book<MaintBook<N>>,
    entries: ledger::Book<Entries<N>>,
    session_entries: ledger::Book<SessionEntries<N>>,
    count: u64,
}

impl<'a, N: Life> Model for Untold<'a, N> {
    ghost use Rattle.std.specs.Prelude.{List};
    ghost use Rattle.wal_record.specs.declared.entry.Entry.{Entry};
    ghost use Rattle.untold_journal.specs.Upkeep.{IsKept};

    ghost Value = { List Entry };

    ghost view = { λ u. u.front };

    ghost invariant = { λ u. IsKept N.opens u.front u.count u.entries.total u.session_entries.total u.sessions u.maint };
}

/// The front goes on by this entry.
fn add<N: Life, A: Added<Entry>>(
    board: &Board<Entry, N>,
    front: &mut Front<Entry, N>,
    entry: &Entry,
)
    requires entry { A.entries ≡ entry.now ∷ [] }
    requires fits { length front.old + 1 < 2 ^ 64 }
    ensures { front.new ≡ front.old ++ entry.now ∷ [] }
{
    front.advance::<A>(board, 1);
}

impl<'a, N: Life> Untold<'a, N> {
    /// The empty history, of a life without sessions.
    pub fn new(
        ground: &'a Ground<N>,
        front: Front<Entry, N>,
        sessions: Book<SessionBook<N>>,
        maint: Book<MaintBook<N>>,
        entries: ledger::Book<Entries<N>>,
        session_entries: ledger::Book<SessionEntries<N>>,
    ) -> Untold<'a, N>
        requires untold { (opening : List Record) → N.opens opening → ⊥ }
        requires empty { (front ≡ []) × (sessions ≡ []) × (maint ≡ []) }
        requires counted { (entries.total ≡ 0) × (session_entries.total ≡ 0) }
        ensures { result ≡ [] }
    {
        Untold {
            ground,
            front,
            sessions,
            maint,
            entries,
            session_entries,
            count: 0,
        }
    }

    /// What the threads of the life share.
    pub fn ground(&self) -> &Ground<N> {
        self.ground
    }

    /// Shows the pass the whole history. The shares count what they counted.
    fn look(&mut self, pass: &mut Pass<Entry, N>, counts: &mut Counts<N>)
        ensures same { self.new ≡ self.old }
        ensures counts { counts.new ≡ counts.old }
        ensures pass { pass.new.log ≡ self.old }
        ensures begins { IsPrefix pass.old.log self.old }
        ensures durable { pass.old.durable ≤ pass.new.durable }
        ensures none { IsUntold N.opens }
        ensures told { untold self.old ≡ None }
        ensures totals { HasTotals N.entries N.session_entries counts.old self.old }
        ensures fresh { IsOpen counts.old }
    {
        self.front.meet(&self.ground.board, pass);
        self.entries.audit(&mut counts.entries);
        self.session_entries.audit(&mut counts.session_entries);
    }

    /// Nobody has a right to a session or to maintenance.
    fn check(&mut self, rights: &mut Rights<N>)
        ensures same { self.new ≡ self.old }
        ensures rights { rights.new ≡ rights.old }
        ensures none { (rights.old.s ≡ None) × (rights.old.m ≡ None) }
    {
        if let Some(right) = rights.s.take() {
            self.sessions
                .set(&self.ground.tables.sessions, right.into_right(), 0, 0);
            unreachable!()
        }
        if let Some(right) = rights.m.take() {
            self.maint
                .set(&self.ground.tables.maint, right.into_right(), 0, 0);
            unreachable!()
        }
    }

    /// As `Entering::see`.
    pub fn see(&mut self, rights: &mut Rights<N>, pass: &mut Pass<Entry, N>, counts: &mut Counts<N>)
        ensures same { self.new ≡ self.old }
        ensures rights { rights.new ≡ rights.old }
        ensures counts { counts.new ≡ counts.old }
        ensures pass { pass.new.log ≡ self.old }
        ensures seen { Enters N.opens N.entries N.session_entries (known counts.old pass.old rights.old) [] (known counts.new pass.new rights.new) }
        ensures fresh { IsOpen counts.old }
    {
        self.check(rights);
        self.look(pass, counts);
    }

    /// As `Entering::flush`. There is no disk, so nothing is durable that has to be.
    pub fn watch(&mut self, pass: &mut Pass<Entry, N>, counts: &mut Counts<N>)
        ensures same { self.new ≡ self.old }
        ensures counts { counts.new ≡ counts.old }
        ensures pass { pass.new.log ≡ self.old }
        ensures seen { Looks N.opens N.entries N.session_entries counts.old pass.old counts.new pass.new }
        ensures fresh { IsOpen counts.old }
    {
        self.see(&mut Rights::none(), pass, counts);
    }

    /// The history goes on by this entry, which is counted.
    fn push(&mut self, entry: &Entry, counts: &mut Counts<N>)
        requires upkeep { IsUpkeep entry.now }
        requires few { length self.old < 2 ^ 62 }
        ensures history { self.new ≡ self.old ++ entry.now ∷ [] }
        ensures counts { counts.new ≡ record counts.old { entries = record { parts = counts.old.entries.parts; amount = counts.old.entries.amount + 1 } } }
    {
        add::<N, Brand>(&self.ground.board, &mut self.front, entry);
        self.count += 1;
        self.entries.add(&mut counts.entries, 1);
    }

    /// Enters this entry and counts it, unless too many are there. Gives how many there are then.
    pub fn enter(
        &mut self,
        entry: &Entry,
        rights: &mut Rights<N>,
        pass: &mut Pass<Entry, N>,
        counts: &mut Counts<N>,
    ) -> Option<u64>
        requires upkeep { IsUpkeep entry.now }
        ensures rights { rights.new ≡ rights.old }
        ensures place { IfSome result (λ pos. pos ≡ length pass.new.log) }
        ensures entered { IfSome result (λ pos. Enters N.opens N.entries N.session_entries (known counts.old pass.old rights.old) (entry.now ∷ []) (known counts.new pass.new rights.new)) }
        ensures none { IfNone result (Enters N.opens N.entries N.session_entries (known counts.old pass.old rights.old) [] (known counts.new pass.new rights.new)) }
        ensures fresh { IsOpen counts.old × IsOpen counts.new }
    {
        self.see(rights, pass, counts);
        if self.count >= MOST_ENTRIES {
            return None;
        }
        self.push(entry, counts);
        self.see(rights, pass, counts);
        Some(self.count)
    }

    /// How many entries there are.
    pub fn count(&self) -> u64 {
        self.count
    }
}

/// The entry of this LSN for the one record of the group, that a page was written or a segment restored.
pub fn alone_in(group: &Group, lsn: Lsn) -> Option<Entry>
    ensures { IfSome result (IsAloneIn group.now lsn) }
{
    if group.room || group.said.is_some() {
        return None;
    }
    let rec = match group.recs.as_slice() {
        [Record::Written(Written { page, lsn })] => Record::Written(Written {
            page: *page,
            lsn: *lsn,
        }),
        [Record::Restored(Restored { segment })] => Record::Restored(Restored {
            segment: *segment,
        }),
        _ => return None,
    };
    Some(Entry::Rec { lsn, rec })
}
