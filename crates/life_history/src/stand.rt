//! What a journal has of its life.
ghost use Rattle.std.specs.Prelude.{◌≡◌, ◌+◌, ◌<◌, ◌≤◌, ◌^◌, [], ◌∷◌, ◌++◌, length, Some, None, IsSome, IfSome, IsTrue, true};
ghost use Rattle.std.specs.List.{list_any};
ghost use Rattle.std.specs.Option.{option_map};
ghost use Rattle.books.specs.Booking.{entry, entry_of, replaced};
ghost use Rattle.books.specs.Rights.{session_entry};
ghost use Rattle.page_ops.specs.Groups.{group_entries};
ghost use Rattle.wal_record.specs.Chains.{names};
ghost use Rattle.wal_record.specs.Rules.{is_page};
ghost use Rattle.wal_record.specs.declared.entry.Entry.TheVariants.{Repaired};
ghost use Rattle.life_history.specs.Groups.{ArePagesSet, IsMaintenanceSet, IsSessionSet, counted_group, own_entries, raised, raised_session};
ghost use Rattle.life_history.specs.Kept.{end_entry};

use crate::counts::Counts;
use crate::raising::{entries_of, own_of, raise_maintenance, raise_pages};
use books::{Books, PageRight, SessionRight};
use front::{Added, Board, Front};
use page_ops::{Entries, Ground, Life, Made, Rights, Said, SessionEntries};
use std::marker::Brand;
use std::mem;
use std::sync::ledger;
use store_model::{Lsn, PageNo, TxId};
use wal_record::{Entry, Record};

/// What a journal has of its life: the words that threads share, the front, the books, and those of the ledgers.
#[derive(Drop)]
pub(crate) struct Stand<'a, N: Life> {
    pub(crate) ground: &'a Ground<N>,
    pub(crate) front: Front<Entry, N>,
    pub(crate) books: Books<N>,
    // A right that stands in for a session's while that one is being changed.
    pub(crate) spare: Option<SessionRight<N>>,
    pub(crate) entries: ledger::Book<Entries<N>>,
    pub(crate) session_entries: ledger::Book<SessionEntries<N>>,
    pub(crate) made: ledger::Book<Made<N>>,
}

/// The front goes on by this group, which has so many entries.
pub(crate) fn add_group<N: Life, A: Added<Entry>>(
    board: &Board<Entry, N>,
    front: &mut Front<Entry, N>,
    lsn: Lsn,
    recs: &[Record],
    said: &Option<Said>,
    count: u64,
)
    requires entries { A.entries ≡ group_entries lsn recs.now said.now }
    requires count { count ≡ length (group_entries lsn recs.now said.now) }
    requires fits { length front.old + count < 2 ^ 64 }
    ensures { front.new ≡ front.old ++ group_entries lsn recs.now said.now }
{
    front.advance::<A>(board, count);
}

/// The front goes on by the End of a transaction, which A has.
fn add_end<N: Life, A: Added<Entry>>(
    board: &Board<Entry, N>,
    front: &mut Front<Entry, N>,
    _lsn: Lsn,
    _tx: TxId,
    _prev: Lsn,
)
    requires entry { A.entries ≡ end_entry _lsn _tx _prev ∷ [] }
    requires fits { length front.old + 1 < 2 ^ 64 }
    ensures { front.new ≡ front.old ++ end_entry _lsn _tx _prev ∷ [] }
{
    front.advance::<A>(board, 1);
}

/// The front goes on by the entry that this page was repaired, which A has.
fn add_repaired<N: Life, A: Added<Entry>>(
    board: &Board<Entry, N>,
    front: &mut Front<Entry, N>,
    _page: PageNo,
)
    requires entry { A.entries ≡ Repaired _page ∷ [] }
    requires fits { length front.old + 1 < 2 ^ 64 }
    ensures { front.new ≡ front.old ++ Repaired _page ∷ [] }
{
    front.advance::<A>(board, 1);
}

impl<'a, N: Life> Stand<'a, N> {
    /// Enters that the page was repaired, and counts the entry, which belongs to no session.
    pub(crate) fn enter_repaired(&mut self, page: PageNo, counts: &mut Counts<N>)
        requires fits { length self.old.front + 1 < 2 ^ 64 }
        ensures books { self.new.books ≡ self.old.books }
        ensures spare { self.new.spare ≡ self.old.spare }
        ensures front { self.new.front ≡ self.old.front ++ Repaired page ∷ [] }
        ensures total { self.new.entries.total ≡ self.old.entries.total + 1 }
        ensures sessions_total { self.new.session_entries.total ≡ self.old.session_entries.total }
        ensures counts { counts.new ≡ counted_group counts.old 1 0 }
    {
        add_repaired::<N, Brand>(&self.ground.board, &mut self.front, page);
        self.entries.add(&mut counts.entries, 1);
    }

    /// Enters the End of a loser, and counts the entry, which belongs to no session.
    pub(crate) fn enter_loser_end(&mut self, lsn: Lsn, tx: TxId, prev: Lsn, counts: &mut Counts<N>)
        requires fits { length self.old.front + 1 < 2 ^ 64 }
        ensures books { self.new.books ≡ self.old.books }
        ensures spare { self.new.spare ≡ self.old.spare }
        ensures front { self.new.front ≡ self.old.front ++ end_entry lsn tx prev ∷ [] }
        ensures total { self.new.entries.total ≡ self.old.entries.total + 1 }
        ensures sessions_total { self.new.session_entries.total ≡ self.old.session_entries.total }
        ensures counts { counts.new ≡ counted_group counts.old 1 0 }
    {
        add_end::<N, Brand>(&self.ground.board, &mut self.front, lsn, tx, prev);
        self.entries.add(&mut counts.entries, 1);
    }

    /// The book has the session's entry as its right has it. Both get these values.
    pub(crate) fn set_session(&mut self, s: &mut SessionRight<N>, entries: u64, tx: TxId)
        requires spare { IsSome self.old.spare }
        ensures before { entry_of s.old.session self.old.books.sessions ≡ Some (session_entry s.old) }
        ensures book { self.new.books.sessions ≡ replaced (entry s.old.session entries tx) self.old.books.sessions }
        ensures right { s.new ≡ record { session = s.old.session; entries = entries; tx = tx } }
        ensures spare { IsSome self.new.spare }
        ensures others { (self.new.books.pages ≡ self.old.books.pages) × (self.new.books.maint ≡ self.old.books.maint) }
        ensures front { self.new.front ≡ self.old.front }
        ensures totals { (self.new.entries.total ≡ self.old.entries.total) × (self.new.session_entries.total ≡ self.old.session_entries.total) }
    {
        let Some(spare) = self.spare.take() else {
            unreachable!()
        };
        let right = mem::replace(s, spare);
        let set = self.books.sessions.set(
            &self.ground.tables.sessions,
            right.into_right(),
            entries,
            tx,
        );
        self.spare = Some(mem::replace(s, SessionRight::of(set)));
    }

    /// Enters the entry of A, which is one of the session, and counts it. The session's right goes on by one entry, and has
    /// this transaction.
    pub(crate) fn enter<A: Added<Entry>>(
        &mut self,
        s: &mut SessionRight<N>,
        tx: TxId,
        counts: &mut Counts<N>,
    )
        requires spare { IsSome self.old.spare }
        requires one { length A.entries ≡ 1 }
        requires fits { length self.old.front + 1 < 2 ^ 64 }
        requires room { s.old.entries + 1 < 2 ^ 64 }
        ensures before { entry_of s.old.session self.old.books.sessions ≡ Some (session_entry s.old) }
        ensures book { self.new.books.sessions ≡ replaced (entry s.old.session (s.old.entries + 1) tx) self.old.books.sessions }
        ensures right { s.new ≡ record { session = s.old.session; entries = s.old.entries + 1; tx = tx } }
        ensures spare { IsSome self.new.spare }
        ensures others { (self.new.books.pages ≡ self.old.books.pages) × (self.new.books.maint ≡ self.old.books.maint) }
        ensures front { self.new.front ≡ self.old.front ++ A.entries }
        ensures total { self.new.entries.total ≡ self.old.entries.total + 1 }
        ensures sessions_total { self.new.session_entries.total ≡ self.old.session_entries.total + 1 }
        ensures counts { counts.new ≡ record counts.old { entries = record { parts = counts.old.entries.parts; amount = counts.old.entries.amount + 1 }; session_entries = record { parts = counts.old.session_entries.parts; amount = counts.old.session_entries.amount + 1 } } }
    {
        let entries = s.entries() + 1;
        self.set_session(s, entries, tx);
        self.front.advance::<A>(&self.ground.board, 1);
        self.entries.add(&mut counts.entries, 1);
        self.session_entries.add(&mut counts.session_entries, 1);
    }

    /// As `enter`, where the entry of A is the record with this LSN, and the one before it of the transaction has that one.
    pub(crate) fn enter_record<A: Added<Entry>>(
        &mut self,
        _lsn: Lsn,
        _prev: Lsn,
        s: &mut SessionRight<N>,
        tx: TxId,
        counts: &mut Counts<N>,
    )
        requires spare { IsSome self.old.spare }
        requires one { length A.entries ≡ 1 }
        requires fits { length self.old.front + 1 < 2 ^ 64 }
        requires room { s.old.entries + 1 < 2 ^ 64 }
        ensures before { entry_of s.old.session self.old.books.sessions ≡ Some (session_entry s.old) }
        ensures book { self.new.books.sessions ≡ replaced (entry s.old.session (s.old.entries + 1) tx) self.old.books.sessions }
        ensures right { s.new ≡ record { session = s.old.session; entries = s.old.entries + 1; tx = tx } }
        ensures spare { IsSome self.new.spare }
        ensures others { (self.new.books.pages ≡ self.old.books.pages) × (self.new.books.maint ≡ self.old.books.maint) }
        ensures front { self.new.front ≡ self.old.front ++ A.entries }
        ensures total { self.new.entries.total ≡ self.old.entries.total + 1 }
        ensures sessions_total { self.new.session_entries.total ≡ self.old.session_entries.total + 1 }
        ensures counts { counts.new ≡ record counts.old { entries = record { parts = counts.old.entries.parts; amount = counts.old.entries.amount + 1 }; session_entries = record { parts = counts.old.session_entries.parts; amount = counts.old.session_entries.amount + 1 } } }
    {
        self.enter::<A>(s, tx, counts);
    }

    /// The right to the session, and its entry in the book, have so many entries more.
    fn raise_session(&mut self, right: &mut Option<SessionRight<N>>, own: u64)
        requires room { IfSome right.old (λ s. s.entries + own < 2 ^ 64) }
        ensures right { right.new ≡ option_map (raised_session own) right.old }
        ensures set { IsSessionSet own right.old self.old.books.sessions self.new.books.sessions }
        ensures others { self.new ≡ record self.old { books = record self.old.books { sessions = self.new.books.sessions } } }
    {
        if let Some(old) = right.take() {
            let (entries, tx) = (old.entries() + own, old.tx());
            let table = &self.ground.tables.sessions;
            let set = self
                .books
                .sessions
                .set(table, old.into_right(), entries, tx);
            *right = Some(SessionRight::of(set));
        }
    }

    /// Enters the group and counts its entries. All rights are raised, and the one to a new page comes into its place.
    pub(crate) fn enter_group(
        &mut self,
        lsn: Lsn,
        recs: &[Record],
        said: &Option<Said>,
        new: Option<PageRight<N>>,
        rights: &mut Rights<N>,
        counts: &mut Counts<N>,
    ) -> u64
        requires few { length recs.now ≤ 2 }
        requires numbers { (1 ≤ lsn) × (lsn + 1 < 2 ^ 63) }
        requires fits { length self.old.front + 3 < 2 ^ 64 }
        requires room { IfSome rights.old.s (λ s. s.entries + 3 < 2 ^ 64) }
        requires place { IsSome new → rights.old.c ≡ None }
        requires named { IfSome new (λ p. IsTrue (is_page p.page) × (list_any (names p.page) recs.now ≡ true)) }
        ensures pages { ArePagesSet lsn recs.now rights.old new self.old.books.pages self.new.books.pages }
        ensures session { IsSessionSet (own_entries rights.old.s recs.now said.now) rights.old.s self.old.books.sessions self.new.books.sessions }
        ensures maintenance { IsMaintenanceSet lsn recs.now rights.old.m self.old.books.maint self.new.books.maint }
        ensures rights { rights.new ≡ raised rights.old new lsn recs.now said.now }
        ensures spare { self.new.spare ≡ self.old.spare }
        ensures front { self.new.front ≡ self.old.front ++ group_entries lsn recs.now said.now }
        ensures number { result ≡ length (group_entries lsn recs.now said.now) }
        ensures few { result ≤ 3 }
        ensures total { self.new.entries.total ≡ self.old.entries.total + length (group_entries lsn recs.now said.now) }
        ensures sessions_total { self.new.session_entries.total ≡ self.old.session_entries.total + own_entries rights.old.s recs.now said.now }
        ensures counts { counts.new ≡ counted_group counts.old (length (group_entries lsn recs.now said.now)) (own_entries rights.old.s recs.now said.now) }
    {
        let ground = self.ground;
        raise_pages(
            &mut self.books.pages,
            &ground.tables.pages,
            rights,
            new,
            lsn,
            recs,
        );
        let (maint, table) = (&mut self.books.maint, &ground.tables.maint);
        raise_maintenance(maint, table, &mut rights.m, lsn, recs);
        let own = own_of(&rights.s, recs, said);
        self.raise_session(&mut rights.s, own);
        let count = entries_of(recs, said);
        add_group::<N, Brand>(&ground.board, &mut self.front, lsn, recs, said, count);
        self.entries.add(&mut counts.entries, count);
        self.session_entries.add(&mut counts.session_entries, own);
        count
    }
}
