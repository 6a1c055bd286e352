//! The history, and what it keeps beside the entries.
ghost use Rattle.std.specs.Prelude.{◌≡◌, ◌⊎◌, ◌+◌, ◌*◌, ◌<◌, ◌≤◌, ◌^◌, List, [], ◌∷◌, ◌++◌, length, filter, true, false, Some, None, IfSome, IsSome, OnOk, OnErr, IfOk, IfErr, IsTrue, nat_le};
ghost use Rattle.std.specs.List.{list_all, list_any};
ghost use mathlib.Core.List.{IsPrefix};
ghost use Rattle.page_ops.specs.Causes.{with_one};
ghost use Rattle.page_ops.specs.Claims.{Agree, MaintAgrees, PageAgrees, SessionAgrees, no_claims, session_alone};
ghost use Rattle.page_ops.specs.Groups.{Each, HasSpeaker, group_entries, needs_maintenance};
ghost use Rattle.page_ops.specs.Outcomes.{IsCrowd, begun, is_repaired, is_undo};
ghost use Rattle.page_ops.specs.Seeing.{Enters, HasTotals, IsConsistent, Looks, is_begun, known, of_sessions};
ghost use Rattle.store_model.specs.declared.fault.Fault.TheVariants as faults;
ghost use Rattle.wal_record.specs.Books.{page_book};
ghost use Rattle.wal_record.specs.Chains.{greatest, link_of, names};
ghost use Rattle.wal_record.specs.History.{Committed, Live, life_log, live_count, log_of, phase};
ghost use Rattle.wal_record.specs.Rules.{is_number, is_page};
ghost use Rattle.wal_record.specs.Sound.{IsSound};
ghost use Rattle.wal_record.specs.Upkeep.{written_lsn};
ghost use Rattle.wal_record.specs.declared.entry.Entry.{Entry};
ghost use Rattle.wal_record.specs.declared.entry.Entry.TheVariants as entries;
ghost use Rattle.wal_record.specs.declared.record.Record.{Record};
ghost use Rattle.life_history.specs.Groups.{IsOwn, counted_group, is_covered, is_still, own_entries, raised};
ghost use Rattle.life_history.specs.Kept.{AreKept, Begins, IsOneOf, IsSmall, commit_entry, counted_more, end_entry};

use crate::counts::Counts;
use crate::raising::undone_of;
use crate::stand::Stand;
use books::{Books, MaintRight, PageRight, SessionRight};
use front::{Added, Front, Pass};
use page_ops::{Entries, Ground, Life, Made, Rights, Said, SessionEntries};
use std::marker::{Brand, Model};
use std::sync::ledger;
use store_model::{Fault, KeyRange, Lsn, MOST_ACTIVE, Mode, Outcome, PageNo, Pos, Request, TxId};
use wal_record::{Entry, Record};

/// The bound of the counters of a life, of its entries, records and transactions: from it on nothing is begun.
pub const MOST_ENTRIES: u64 = 1 << 62;

/// The history of a life, its books and its numbers. Contracts see it as the list of its entries.
#[derive(Drop)]
pub struct History<'a, N: Life> {
    count: u64,
    next_session: u32,
    next_tx: TxId,
    // The first transaction that a session of the life may have begun.
    first_tx: TxId,
    live: u32,
    next_page: PageNo,
    undone: u64,
    repaired: u64,
    stand: Stand<'a, N>,
}

impl<'a, N: Life> Model for History<'a, N> {
    ghost use Rattle.std.specs.Prelude.{List, IsSome};
    ghost use Rattle.wal_record.specs.declared.entry.Entry.{Entry};
    ghost use Rattle.life_history.specs.Kept.{IsKept, IsSmall, IsTallied};

    ghost Value = { List Entry };

    ghost view = { λ h. h.stand.front };

    ghost invariant = { λ h. IsSome h.stand.spare × IsKept N.opens h.stand.front (record { entries = h.count; session = h.next_session; tx = h.next_tx; first = h.first_tx; live = h.live }) (record { pages = h.stand.books.pages; sessions = h.stand.books.sessions; maint = h.stand.books.maint }) h.stand.entries.total h.stand.session_entries.total × IsSmall h.next_page (record { pages = h.stand.books.pages; sessions = h.stand.books.sessions; maint = h.stand.books.maint }) × IsTallied h.stand.front h.undone h.repaired };
}

impl<'a, N: Life> History<'a, N> {
    /// The empty history of a life that began with a log with this number above all its transactions. The books have the
    /// rights to the pages, all of them below the next one, and no session; of maintenance they have the number 0 at most.
    pub fn new(
        ground: &'a Ground<N>,
        front: Front<Entry, N>,
        mut books: Books<N>,
        entries: ledger::Book<Entries<N>>,
        session_entries: ledger::Book<SessionEntries<N>>,
        made: ledger::Book<Made<N>>,
        next_tx: TxId,
        next_page: PageNo,
    ) -> History<'a, N>
        requires empty { (front ≡ []) × (entries.total ≡ 0) × (session_entries.total ≡ 0) }
        requires books { AreKept N.opens [] (record { pages = books.pages; sessions = books.sessions; maint = books.maint }) }
        requires sessions { books.sessions ≡ [] }
        requires small { IsSmall next_page (record { pages = books.pages; sessions = books.sessions; maint = books.maint }) }
        requires number { 1 ≤ next_tx }
        requires opening { (opening : List Record) → N.opens opening → Begins opening next_tx }
        ensures { result ≡ [] }
    {
        let spare = SessionRight::of(books.sessions.open(&ground.tables.sessions, 0));
        History {
            count: 0,
            next_session: 1,
            next_tx,
            first_tx: next_tx,
            live: 0,
            next_page,
            undone: 0,
            repaired: 0,
            stand: Stand {
                ground,
                front,
                books,
                spare: Some(spare),
                entries,
                session_entries,
                made,
            },
        }
    }

    /// How many entries it has. Whoever has all parts of the ledger of entries has entered as many.
    pub fn total(&mut self, counts: &mut Counts<N>) -> u64
        ensures length { result ≡ length self.old }
        ensures whole { counts.old.entries.parts ≡ N.entries.parts → result ≡ counts.old.entries.amount }
    {
        self.stand.entries.audit(&mut counts.entries);
        self.count
    }

    /// The page's right comes back as it was, and agrees with the history.
    fn see_page(&mut self, right: &mut Option<PageRight<N>>)
        ensures same { self.new ≡ self.old }
        ensures right { right.new ≡ right.old }
        ensures agrees { IfSome right.old (PageAgrees N.opens self.old) }
    {
        if let Some(old) = right.take() {
            let (lsn, ground) = (old.lsn(), self.stand.ground);
            let same = self
                .stand
                .books
                .pages
                .set(&ground.tables.pages, old.into_right(), lsn, 0);
            *right = Some(PageRight::of(same));
        }
    }

    /// The session's right comes back as it was, and agrees with the history.
    fn see_session(&mut self, right: &mut Option<SessionRight<N>>)
        ensures same { self.new ≡ self.old }
        ensures right { right.new ≡ right.old }
        ensures agrees { IfSome right.old (SessionAgrees self.old) }
    {
        if let Some(old) = right.take() {
            let (entries, tx, ground) = (old.entries(), old.tx(), self.stand.ground);
            let same = self
                .stand
                .books
                .sessions
                .set(&ground.tables.sessions, old.into_right(), entries, tx);
            *right = Some(SessionRight::of(same));
        }
    }

    /// The right to maintenance comes back as it was, and agrees with the history.
    fn see_maint(&mut self, right: &mut Option<MaintRight<N>>)
        ensures same { self.new ≡ self.old }
        ensures right { right.new ≡ right.old }
        ensures agrees { IfSome right.old (MaintAgrees self.old) }
    {
        if let Some(old) = right.take() {
            let (lsn, ground) = (old.lsn(), self.stand.ground);
            let same = self
                .stand
                .books
                .maint
                .set(&ground.tables.maint, old.into_right(), lsn, 0);
            *right = Some(MaintRight::of(same));
        }
    }

    /// Shows the pass the whole history. The shares count what they counted.
    pub fn look(&mut self, pass: &mut Pass<Entry, N>, counts: &mut Counts<N>)
        ensures same { self.new ≡ self.old }
        ensures counts { counts.new ≡ counts.old }
        ensures pass { pass.new.log ≡ self.old }
        ensures begins { IsPrefix pass.old.log self.old }
        ensures durable { pass.old.durable ≤ pass.new.durable }
        ensures consistent { IsConsistent N.opens self.old }
        ensures totals { HasTotals N.entries N.session_entries counts.old self.old }
        ensures seen { Looks N.opens N.entries N.session_entries counts.old pass.old counts.new pass.new }
    {
        let ground = self.stand.ground;
        self.stand.front.meet(&ground.board, pass);
        self.stand.entries.audit(&mut counts.entries);
        self.stand
            .session_entries
            .audit(&mut counts.session_entries);
    }

    /// As `Entering::see`.
    pub fn see(&mut self, rights: &mut Rights<N>, pass: &mut Pass<Entry, N>, counts: &mut Counts<N>)
        ensures same { self.new ≡ self.old }
        ensures rights { rights.new ≡ rights.old }
        ensures counts { counts.new ≡ counts.old }
        ensures pass { pass.new.log ≡ self.old }
        ensures seen { Enters N.opens N.entries N.session_entries (known counts.old pass.old rights.old) [] (known counts.new pass.new rights.new) }
    {
        self.see_page(&mut rights.a);
        self.see_page(&mut rights.b);
        self.see_page(&mut rights.c);
        self.see_session(&mut rights.s);
        self.see_maint(&mut rights.m);
        self.look(pass, counts);
    }

    /// Shows the pass the history, with which the session's right agrees, and says nothing of it: what is asked for is
    /// kept nowhere.
    pub fn watch_session(
        &mut self,
        s: &mut SessionRight<N>,
        pass: &mut Pass<Entry, N>,
        counts: &mut Counts<N>,
    )
        ensures same { self.new ≡ self.old }
        ensures right { s.new ≡ s.old }
        ensures counts { counts.new ≡ counts.old }
        ensures pass { pass.new.log ≡ self.old }
        ensures seen { Enters N.opens N.entries N.session_entries (known counts.old pass.old (session_alone s.old)) [] (known counts.new pass.new (session_alone s.new)) }
        ensures number { 0 < s.old.tx → s.old.tx ≤ 2 ^ 62 }
    {
        let (entries, tx) = (s.entries(), s.tx());
        self.stand.set_session(s, entries, tx);
        self.look(pass, counts);
    }

    /// The right to a new session, to which no entry belongs. It wants memory where all numbers are given.
    pub fn session(
        &mut self,
        pass: &mut Pass<Entry, N>,
        counts: &mut Counts<N>,
    ) -> Result<SessionRight<N>, Fault>
        ensures same { self.new ≡ self.old }
        ensures seen { Enters N.opens N.entries N.session_entries (record (known counts.old pass.old no_claims) { account = record counts.old { made = counts.new.made } }) [] (known counts.new pass.new no_claims) }
        ensures made { counts.new.made ≡ with_one counts.old.made result }
        ensures counts { counts.new ≡ record counts.old { made = counts.new.made } }
        ensures new { IfOk result (λ s. (s.entries ≡ 0) × (s.tx ≡ 0) × SessionAgrees pass.new.log s) }
        ensures refused { IfErr result (λ fault. fault ≡ faults.Memory) }
    {
        self.look(pass, counts);
        if self.next_session == u32::MAX {
            return Err(Fault::Memory);
        }
        let (number, ground) = (self.next_session, self.stand.ground);
        self.next_session += 1;
        self.stand.made.add(&mut counts.made, 1);
        let right = self
            .stand
            .books
            .sessions
            .open(&ground.tables.sessions, number);
        Ok(SessionRight::of(right))
    }

    /// Counts one more desk of the life. It enters nothing.
    pub fn desk(&mut self, pass: &mut Pass<Entry, N>, counts: &mut Counts<N>)
        ensures same { self.new ≡ self.old }
        ensures seen { Looks N.opens N.entries N.session_entries (record counts.old { made = counts.new.made }) pass.old counts.new pass.new }
        ensures made { counts.new.made ≡ record counts.old.made { amount = counts.old.made.amount + 1 } }
        ensures counts { counts.new ≡ record counts.old { made = counts.new.made } }
    {
        self.look(pass, counts);
        self.stand.made.add(&mut counts.made, 1);
    }

    /// Begins a transaction of the session, with the next number. `TooManyActive` exactly where 64 are live. It wants memory
    /// where a counter has reached 2^62.
    pub fn begin(
        &mut self,
        s: &mut SessionRight<N>,
        pass: &mut Pass<Entry, N>,
        counts: &mut Counts<N>,
    ) -> Result<TxId, Fault>
        requires free { s.old.tx ≡ 0 }
        ensures entered { Enters N.opens N.entries N.session_entries (known counts.old pass.old (session_alone s.old)) (begun s.old.session result) (known counts.new pass.new (session_alone s.new)) }
        ensures history { self.new ≡ self.old ++ begun s.old.session result }
        ensures live { OnOk result ((live_count self.new ≡ live_count self.old + 1) × (live_count self.new ≤ 64)) }
        ensures right { IfOk result (λ tx. s.new ≡ record { session = s.old.session; entries = s.old.entries + 1; tx = tx }) }
        ensures number { IfOk result (λ tx. IsTrue (is_number tx)) }
        ensures counts { OnOk result (counts.new ≡ counted_more counts.old 1) }
        ensures same { OnErr result ((self.new ≡ self.old) × (s.new ≡ s.old) × (counts.new ≡ counts.old)) }
        ensures crowd { IfErr result (IsCrowd pass.new.log) }
        ensures refused { IfErr result (λ fault. (fault ≡ faults.Memory) ⊎ (fault ≡ faults.TooManyActive)) }
    {
        self.watch_session(s, pass, counts);
        if self.live == MOST_ACTIVE {
            return Err(Fault::TooManyActive);
        }
        if self.count >= MOST_ENTRIES || self.next_tx >= MOST_ENTRIES {
            return Err(Fault::Memory);
        }
        let (tx, ground) = (self.next_tx, self.stand.ground);
        self.stand.enter::<Brand>(s, tx, counts);
        self.count += 1;
        self.next_tx += 1;
        self.live += 1;
        self.stand.front.meet(&ground.board, pass);
        Ok(tx)
    }

    /// Enters that the page was repaired, of which an image was written.
    #[tactic(auto, using(crate::proofs::Tallying::repaired_within))]
    pub fn enter_repaired(
        &mut self,
        page: PageNo,
        pass: &mut Pass<Entry, N>,
        counts: &mut Counts<N>,
    )
        requires few { length self.old < 2 ^ 62 }
        requires image { (opening : List Record) → N.opens opening → 0 < written_lsn (life_log opening self.old) page }
        ensures history { self.new ≡ self.old ++ entries.Repaired page ∷ [] }
        ensures live { (live_count self.new ≡ live_count self.old) × (live_count self.old ≤ 64) }
        ensures seen { pass.new.log ≡ self.new }
        ensures entered { Enters N.opens N.entries N.session_entries (known counts.old pass.old no_claims) (entries.Repaired page ∷ []) (known counts.new pass.new no_claims) }
        ensures counts { counts.new ≡ counted_group counts.old 1 0 }
    {
        self.look(pass, counts);
        let ground = self.stand.ground;
        self.stand.enter_repaired(page, counts);
        self.count += 1;
        self.repaired += 1;
        self.stand.front.meet(&ground.board, pass);
    }

    /// Enters an entry of the session that is no record, and by which no transaction begins or ends.
    fn enter_one<A: Added<Entry>>(
        &mut self,
        s: &mut SessionRight<N>,
        pass: &mut Pass<Entry, N>,
        counts: &mut Counts<N>,
    )
        requires own { IsOneOf s.old.session s.old.tx A.entries }
        requires active { 0 < s.old.tx }
        requires few { length self.old < 2 ^ 62 }
        requires agrees { SessionAgrees self.old s.old }
        requires consistent { IsConsistent N.opens (self.old ++ A.entries) }
        ensures history { self.new ≡ self.old ++ A.entries }
        ensures live { (live_count self.new ≡ live_count self.old) × (live_count self.old ≤ 64) }
        ensures seen { pass.new.log ≡ self.new }
        ensures durable { pass.old.durable ≤ pass.new.durable }
        ensures right { s.new ≡ record { session = s.old.session; entries = s.old.entries + 1; tx = s.old.tx } }
        ensures agrees { SessionAgrees self.new s.new }
        ensures counts { counts.new ≡ counted_more counts.old 1 }
        ensures counted { of_sessions self.new ≡ of_sessions self.old + 1 }
    {
        let (tx, ground) = (s.tx(), self.stand.ground);
        self.stand.enter::<A>(s, tx, counts);
        self.count += 1;
        self.stand.front.meet(&ground.board, pass);
    }

    /// Enters that the session's transaction has locked the range. A has this entry.
    pub fn enter_lock<A: Added<Entry>>(
        &mut self,
        range: &KeyRange,
        mode: Mode,
        s: &mut SessionRight<N>,
        pass: &mut Pass<Entry, N>,
        counts: &mut Counts<N>,
    )
        requires entry { A.entries ≡ entries.Lock s.old.tx range.now mode ∷ [] }
        requires active { 0 < s.old.tx }
        requires few { length self.old < 2 ^ 62 }
        requires agrees { SessionAgrees self.old s.old }
        requires consistent { IsConsistent N.opens (self.old ++ entries.Lock s.old.tx range.now mode ∷ []) }
        ensures history { self.new ≡ self.old ++ entries.Lock s.old.tx range.now mode ∷ [] }
        ensures live { (live_count self.new ≡ live_count self.old) × (live_count self.old ≤ 64) }
        ensures seen { pass.new.log ≡ self.new }
        ensures durable { pass.old.durable ≤ pass.new.durable }
        ensures right { s.new ≡ record { session = s.old.session; entries = s.old.entries + 1; tx = s.old.tx } }
        ensures agrees { SessionAgrees self.new s.new }
        ensures counts { counts.new ≡ counted_more counts.old 1 }
        ensures counted { of_sessions self.new ≡ of_sessions self.old + 1 }
    {
        self.enter_one::<A>(s, pass, counts);
    }

    /// Enters that the lock of the range was refused to the session's transaction, for this holder's. A has this entry.
    pub fn enter_refused<A: Added<Entry>>(
        &mut self,
        range: &KeyRange,
        mode: Mode,
        holder: TxId,
        s: &mut SessionRight<N>,
        pass: &mut Pass<Entry, N>,
        counts: &mut Counts<N>,
    )
        requires entry { A.entries ≡ entries.Refused s.old.tx range.now mode holder ∷ [] }
        requires active { 0 < s.old.tx }
        requires few { length self.old < 2 ^ 62 }
        requires agrees { SessionAgrees self.old s.old }
        requires consistent { IsConsistent N.opens (self.old ++ entries.Refused s.old.tx range.now mode holder ∷ []) }
        ensures history { self.new ≡ self.old ++ entries.Refused s.old.tx range.now mode holder ∷ [] }
        ensures live { (live_count self.new ≡ live_count self.old) × (live_count self.old ≤ 64) }
        ensures seen { pass.new.log ≡ self.new }
        ensures durable { pass.old.durable ≤ pass.new.durable }
        ensures right { s.new ≡ record { session = s.old.session; entries = s.old.entries + 1; tx = s.old.tx } }
        ensures agrees { SessionAgrees self.new s.new }
        ensures counts { counts.new ≡ counted_more counts.old 1 }
        ensures counted { of_sessions self.new ≡ of_sessions self.old + 1 }
    {
        self.enter_one::<A>(s, pass, counts);
    }

    /// Enters that a request of the session's transaction is declined. A has this entry.
    pub fn enter_declined<A: Added<Entry>>(
        &mut self,
        request: &Request,
        why: &Outcome,
        s: &mut SessionRight<N>,
        pass: &mut Pass<Entry, N>,
        counts: &mut Counts<N>,
    )
        requires entry { A.entries ≡ entries.Declined s.old.session s.old.tx request.now why.now ∷ [] }
        requires active { 0 < s.old.tx }
        requires few { length self.old < 2 ^ 62 }
        requires agrees { SessionAgrees self.old s.old }
        requires consistent { IsConsistent N.opens (self.old ++ entries.Declined s.old.session s.old.tx request.now why.now ∷ []) }
        ensures history { self.new ≡ self.old ++ entries.Declined s.old.session s.old.tx request.now why.now ∷ [] }
        ensures live { (live_count self.new ≡ live_count self.old) × (live_count self.old ≤ 64) }
        ensures seen { pass.new.log ≡ self.new }
        ensures durable { pass.old.durable ≤ pass.new.durable }
        ensures right { s.new ≡ record { session = s.old.session; entries = s.old.entries + 1; tx = s.old.tx } }
        ensures agrees { SessionAgrees self.new s.new }
        ensures counts { counts.new ≡ counted_more counts.old 1 }
        ensures counted { of_sessions self.new ≡ of_sessions self.old + 1 }
    {
        self.enter_one::<A>(s, pass, counts);
    }

    /// The right to a page that has no entry in the book yet. None where it may have one.
    pub fn open_page(&mut self, page: PageNo) -> Option<PageRight<N>>
        requires number { IsTrue (is_page page) }
        requires fresh { (opening : List Record) → N.opens opening → page_book opening self.old page ≡ 0 }
        ensures same { self.new ≡ self.old }
        ensures right { IfSome result (λ p. p ≡ record { page = page; lsn = 0 }) }
    {
        if page < self.next_page {
            return None;
        }
        self.next_page = page + 1;
        let table = &self.stand.ground.tables.pages;
        Some(PageRight::of(self.stand.books.pages.open(table, page)))
    }

    /// Enters a group: records from this LSN on by which no transaction ends, and the answer of a request. `new` is the
    /// right to the page that they make, where they make one. All rights are raised. A record of a transaction that no session
    /// began, a loser's, belongs to none.
    #[tactic(auto, using(crate::proofs::Tallying::undone_within))]
    pub fn enter_group(
        &mut self,
        lsn: Lsn,
        recs: &[Record],
        said: &Option<Said>,
        new: Option<PageRight<N>>,
        rights: &mut Rights<N>,
        counts: &mut Counts<N>,
    )
        requires few { length recs.now ≤ 2 }
        requires still { IsTrue (list_all is_still recs.now) }
        requires own { Each (λ r. IsOwn self.old rights.old.s (link_of r)) recs.now }
        requires speaker { HasSpeaker rights.old.s said.now }
        requires covered { IsTrue (list_all (is_covered rights.old new) recs.now) }
        requires maintained { list_any needs_maintenance recs.now ≡ true → IsSome rights.old.m }
        requires place { IsSome new → rights.old.c ≡ None }
        requires named { IfSome new (λ p. IsTrue (is_page p.page) × (list_any (names p.page) recs.now ≡ true)) }
        requires lsn { (opening : List Record) → N.opens opening → lsn ≡ length (life_log opening self.old) + 1 }
        requires numbers { (1 ≤ lsn) × (lsn ≤ 2 ^ 62) }
        requires low { length self.old < 2 ^ 62 }
        requires agrees { Agree N.opens self.old rights.old }
        requires fresh { IfSome new (PageAgrees N.opens self.old) }
        requires consistent { IsConsistent N.opens (self.old ++ group_entries lsn recs.now said.now) }
        ensures history { self.new ≡ self.old ++ group_entries lsn recs.now said.now }
        ensures live { (live_count self.new ≡ live_count self.old) × (live_count self.old ≤ 64) }
        ensures rights { rights.new ≡ raised rights.old new lsn recs.now said.now }
        ensures counts { counts.new ≡ counted_group counts.old (length (group_entries lsn recs.now said.now)) (own_entries rights.old.s recs.now said.now) }
        ensures counted { of_sessions self.new ≡ of_sessions self.old + own_entries rights.old.s recs.now said.now }
    {
        self.undone += undone_of(recs);
        self.count += self.stand.enter_group(lsn, recs, said, new, rights, counts);
    }

    /// Enters the commit of the session's transaction, as the record with this LSN.
    pub fn enter_commit(
        &mut self,
        lsn: Lsn,
        prev: Lsn,
        s: &mut SessionRight<N>,
        counts: &mut Counts<N>,
    )
        requires active { 0 < s.old.tx }
        requires live { phase self.old s.old.tx ≡ Live }
        requires agrees { SessionAgrees self.old s.old }
        requires consistent { IsConsistent N.opens (self.old ++ commit_entry lsn s.old.tx prev ∷ []) }
        ensures history { self.new ≡ self.old ++ commit_entry lsn s.old.tx prev ∷ [] }
        ensures live { live_count self.new + 1 ≡ live_count self.old }
        ensures room { length self.new + 2 * live_count self.new + 1 < 2 ^ 63 }
        ensures right { s.new ≡ record { session = s.old.session; entries = s.old.entries + 1; tx = s.old.tx } }
        ensures agrees { SessionAgrees self.new s.new }
        ensures counts { counts.new ≡ counted_more counts.old 1 }
        ensures counted { of_sessions self.new ≡ of_sessions self.old + 1 }
    {
        let tx = s.tx();
        self.stand.enter_record::<Brand>(lsn, prev, s, tx, counts);
        self.count += 1;
        self.live -= 1;
    }

    /// Enters the end of the session's transaction, as the record with this LSN. The session has then no transaction.
    pub fn enter_end(
        &mut self,
        lsn: Lsn,
        prev: Lsn,
        s: &mut SessionRight<N>,
        counts: &mut Counts<N>,
    )
        requires active { 0 < s.old.tx }
        requires live { phase self.old s.old.tx ≡ Live }
        requires agrees { SessionAgrees self.old s.old }
        requires consistent { IsConsistent N.opens (self.old ++ end_entry lsn s.old.tx prev ∷ []) }
        ensures history { self.new ≡ self.old ++ end_entry lsn s.old.tx prev ∷ [] }
        ensures live { live_count self.new + 1 ≡ live_count self.old }
        ensures right { s.new ≡ record { session = s.old.session; entries = s.old.entries + 1; tx = 0 } }
        ensures counts { counts.new ≡ counted_more counts.old 1 }
        ensures counted { of_sessions self.new ≡ of_sessions self.old + 1 }
    {
        self.stand.enter_record::<Brand>(lsn, prev, s, 0, counts);
        self.count += 1;
        self.live -= 1;
    }

    /// Enters the end of a transaction that no session began, a loser's, as the record with this LSN.
    pub fn enter_loser_end(&mut self, lsn: Lsn, tx: TxId, prev: Lsn, counts: &mut Counts<N>)
        requires loser { is_begun self.old tx ≡ false }
        requires few { length self.old < 2 ^ 62 }
        requires consistent { IsConsistent N.opens (self.old ++ end_entry lsn tx prev ∷ []) }
        ensures history { self.new ≡ self.old ++ end_entry lsn tx prev ∷ [] }
        ensures live { (live_count self.new ≡ live_count self.old) × (live_count self.old ≤ 64) }
        ensures counts { counts.new ≡ counted_group counts.old 1 0 }
        ensures counted { of_sessions self.new ≡ of_sessions self.old }
    {
        self.stand.enter_loser_end(lsn, tx, prev, counts);
        self.count += 1;
    }

    /// Whether the transaction may be one of the opening log. No session of the life has begun it then.
    pub fn is_earlier(&self, tx: TxId) -> bool
        ensures begun { IsTrue result → is_begun self.now tx ≡ false }
        ensures opening { (opening : List Record) → N.opens opening → result ≡ nat_le tx (greatest opening) }
    {
        tx < self.first_tx
    }

    /// Enters that the commit of the session's transaction is acknowledged. The session has then no transaction.
    pub fn acknowledge(&mut self, s: &mut SessionRight<N>, counts: &mut Counts<N>)
        requires active { 0 < s.old.tx }
        requires committed { phase self.old s.old.tx ≡ Committed }
        requires room { length self.old + 2 * live_count self.old + 1 < 2 ^ 63 }
        requires agrees { SessionAgrees self.old s.old }
        ensures history { self.new ≡ self.old ++ entries.Acked s.old.session s.old.tx ∷ [] }
        ensures live { live_count self.new ≡ live_count self.old }
        ensures consistent { IsConsistent N.opens self.new }
        ensures right { s.new ≡ record { session = s.old.session; entries = s.old.entries + 1; tx = 0 } }
        ensures agrees { SessionAgrees self.new s.new }
        ensures counts { counts.new ≡ counted_more counts.old 1 }
        ensures counted { of_sessions self.new ≡ of_sessions self.old + 1 }
    {
        self.stand.enter::<Brand>(s, 0, counts);
        self.count += 1;
    }

    /// What the threads of the life share.
    pub fn ground(&self) -> &Ground<N> {
        self.stand.ground
    }

    /// How many writes the life has undone.
    pub fn undone(&self) -> u64
        ensures { result ≡ length (filter is_undo (log_of self.now)) }
    {
        self.undone
    }

    /// How many pages the life has repaired, counting each time.
    pub fn repaired(&self) -> u64
        ensures { result ≡ length (filter is_repaired self.now) }
    {
        self.repaired
    }

    /// How many entries it has.
    pub fn length(&self) -> Pos
        ensures { result ≡ length self.now }
    {
        self.count
    }
}
