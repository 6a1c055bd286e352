//! How a group is entered: what stands in its way, what is filled into it, and what it leaves.
ghost use Rattle.std.specs.Prelude.{◌≡◌, ◌+◌, ◌<◌, ◌≤◌, ℕ, suc, List, [], ◌∷◌, length, true, false, Some, None, IfSome, IfNone, IsSome, IfOk, IfErr, OnOk, OnErr, IsTrue};
ghost use Rattle.std.specs.List.{All, list_any};
ghost use Rattle.group_filling.specs.Fitting.{AreInRange};
ghost use Rattle.log_manager.specs.Payload.{bytes_of};
ghost use Rattle.listed_log.specs.Listed.{Joins};
ghost use Rattle.page_ops.specs.Asking.{HasNumbers, HasRoomFor, IsAskable, IsLate, IsTimely, LacksRoomFor, MayBeDeclined, MayFollow, WasTimely, can_be_late};
ghost use Rattle.page_ops.specs.Causes.{Ends, FailsToEnter, OrFull};
ghost use Rattle.page_ops.specs.Claims.{Agree};
ghost use Rattle.page_ops.specs.Groups as groups;
ghost use Rattle.page_ops.specs.Groups.{Each, HasRights, HasSpeaker, IsGroup};
ghost use Rattle.wal_record.specs.Checkpoints.{is_checkpoint};
ghost use Rattle.page_ops.specs.Outcomes.{EntersGroup, IsAnswer, IsFilledIn, IsFull, KeepsGroup, KeepsRights, OnEntered, refused};
ghost use Rattle.page_ops.specs.Seeing.{Enters, IsConsistent, IsMoment, is_begun, known};
ghost use Rattle.wal_record.specs.Books.{page_book};
ghost use Rattle.wal_record.specs.Chains.{pages};
ghost use Rattle.wal_record.specs.History.{life_log};
ghost use Rattle.wal_record.specs.OpenWrites as writes;
ghost use Rattle.wal_record.specs.OpenWrites.{pending};
ghost use Rattle.wal_record.specs.Rules.{HasSpelling, is_page};
ghost use Rattle.wal_record.specs.State.{is_child};
ghost use Rattle.wal_record.specs.declared.entry.Entry.{Entry};
ghost use Rattle.wal_record.specs.declared.record.Record.{Record};
ghost use Rattle.wal_record.specs.declared.record.Record.TheVariants as kinds;
ghost use Rattle.journal.specs.Declined.{IsDeclined, IsTaken};
ghost use Rattle.journal.specs.State.{IsUntouched, LearnsEnd};
ghost use Rattle.journal.specs.Groups.{EndsLoser, EntersFilled, EntersNow, GroupFollows, IsCheckpointAlone, IsNext, IsNextPage};

use crate::checkpointing::{can_spell, is_checkpoint_alone};
use crate::ends::check_open;
use crate::filling::{append_all, child_of, end_of};
use crate::journal::Journal;
use crate::late::first_late;
use crate::restored::{note_group, prepare_group};
use crate::taken::Taken;
use crate::undone::note_undone;
use books::PageRight;
use front::Pass;
use group_filling::{can_fill, fill, have_numbers, is_fit, made_by, put_back};
use life_history::{Counts, MOST_ENTRIES};
use media::Disk;
use page_ops::{Entered, Group, Life, Rights, Said};
use std::alloc::Global;
use std::marker::Brand;
use store_model::{Fault, List, Lsn, MOST_PAGES, Memory, Outcome, PageNo, Pos};
use wal_record::{End, Entry, Record};

impl<'a, L: Disk, N: Life> Journal<'a, L, N> {
    /// How many pages and pending writes there are. It wants memory where these are more than a store can have.
    fn taken(&self) -> Result<Taken, Memory>
        ensures { IfOk result (IsTaken N.opens self.now.history) }
    {
        let listing = self.log.listing();
        let Ok(pages) = u32::try_from(listing.pages()) else {
            return Err(Memory);
        };
        let Ok(pending) = u32::try_from(listing.pending()) else {
            return Err(Memory);
        };
        Ok(Taken { pages, pending })
    }

    /// Whether there is the room that the group asks for.
    fn has_room(&self, group: &Group, taken: &Taken) -> bool
        requires { IsTaken N.opens self.now.history taken.now }
        ensures room { IsTrue result → (opening : List Record) → N.opens opening → HasRoomFor opening self.now.history group.now }
        ensures none { result ≡ false → (group.now.room ≡ true) × ((opening : List Record) → N.opens opening → LacksRoomFor opening self.now.history group.now) }
    {
        let needed = match &group.said {
            Some(_) => 2,
            None => 3,
        };
        let used = u64::from(taken.pages) + u64::from(taken.pending);
        !group.room || used + needed <= u64::from(self.log.listing().limit())
    }

    /// The number of the page that comes next.
    fn next_page(&self) -> Result<PageNo, Memory>
        ensures child { IfOk result (λ page. IsTrue (is_child page)) }
        ensures next { IfOk result (λ page. (opening : List Record) → N.opens opening → page ≡ suc (pages (life_log opening self.now.history))) }
    {
        match u32::try_from(self.log.listing().pages()) {
            Ok(count) if 0 < count && count < MOST_PAGES => Ok(count + 1),
            _ => Err(Memory),
        }
    }

    /// The right that was opened for a page to come, or one that is opened now.
    fn take_right(&mut self, page: PageNo) -> Option<PageRight<N>>
        requires number { IsTrue (is_page page) }
        requires fresh { (opening : List Record) → N.opens opening → page_book opening self.old.history page ≡ 0 }
        ensures same { self.new ≡ self.old }
    {
        match self.made.take() {
            Some(right) => Some(right),
            None => self.history.open_page(page),
        }
    }

    /// The right to the page that comes next, where a group makes one.
    fn new_right(&mut self, made: Option<PageNo>) -> Result<Option<PageRight<N>>, Memory>
        requires consistent { IsConsistent N.opens self.old.history }
        ensures same { self.new ≡ self.old }
        ensures none { IfOk result (λ new. made ≡ None → new ≡ None) }
        ensures some { IfOk result (λ new. IsSome made → IsSome new) }
        ensures right { IfOk result (λ new. IfSome new (IsNextPage N.opens self.old.history)) }
    {
        if made.is_none() {
            return Ok(None);
        }
        let page = self.next_page()?;
        match self.take_right(page) {
            Some(right) if right.page() == page && right.lsn() == 0 => Ok(Some(right)),
            _ => Err(Memory),
        }
    }

    /// Enters the End of a loser, which stands alone. It belongs to no session.
    fn end_loser(&mut self, alloc: Global, end: End, counts: &mut Counts<N>) -> Result<Lsn, Memory>
        requires spelled { Each AreInRange (kinds.End end ∷ []) → All HasSpelling (kinds.End end ∷ []) × (length (bytes_of (kinds.End end ∷ [])) ≤ 4194304) }
        requires loser { is_begun self.old.history end.tx ≡ false }
        requires follows { (lsn : ℕ) → IsNext N.opens self.old.history lsn → GroupFollows N.opens self.old.history lsn (kinds.End end ∷ []) None }
        ensures none { OnErr result ((self.new.history ≡ self.old.history) × (counts.new ≡ counts.old)) }
        ensures ended { IfOk result (EndsLoser end counts.old counts.new self.old.history self.new.history) }
        ensures disk { IsUntouched self.old self.new }
    {
        let (last, loser, prev) = (self.log.last(), end.tx, end.prev);
        let before = self.history.length();
        if last == 0 || last >= MOST_ENTRIES || before >= MOST_ENTRIES {
            return Err(Memory);
        }
        let recs = [Record::End(end)];
        if !have_numbers(&recs) {
            return Err(Memory);
        }
        let lsn = append_all(&mut self.log, alloc, &recs)?;
        self.history.enter_loser_end(lsn, loser, prev, counts);
        self.losers.ended(loser, before + 1);
        // A loser has no locks in the table, as far as the opening log is known.
        self.locks.release_all(loser);
        Ok(lsn)
    }

    /// Enters an End alone: of a loser, or of the session's transaction.
    fn enter_end(
        &mut self,
        alloc: Global,
        end: End,
        new: &Option<PageRight<N>>,
        rights: &mut Rights<N>,
        counts: &mut Counts<N>,
    ) -> Result<Lsn, Memory>
        requires spelled { Each AreInRange (kinds.End end ∷ []) → All HasSpelling (kinds.End end ∷ []) × (length (bytes_of (kinds.End end ∷ [])) ≤ 4194304) }
        requires agrees { Agree N.opens self.old.history rights.old }
        requires follows { (lsn : ℕ) → IsNext N.opens self.old.history lsn → GroupFollows N.opens self.old.history lsn (kinds.End end ∷ []) None }
        ensures none { OnErr result ((self.new.history ≡ self.old.history) × (rights.new ≡ rights.old) × (counts.new ≡ counts.old)) }
        ensures entered { IfOk result (EntersFilled (kinds.End end ∷ []) None new.now rights.old rights.new counts.old counts.new self.old.history self.new.history) }
        ensures disk { IsUntouched self.old self.new }
    {
        if new.is_some() {
            return Err(Memory);
        }
        if self.history.is_earlier(end.tx) {
            return self.end_loser(alloc, end, counts);
        }
        let Some(mut s) = rights.s.take() else {
            return Err(Memory);
        };
        let ended = self.end_session(alloc, end, &mut s, counts);
        rights.s = Some(s);
        ended
    }

    /// Enters a group that is filled in, in the log and in the history. `new` is the right to the page that it makes, if it
    /// makes one.
    fn enter_filled(
        &mut self,
        alloc: Global,
        recs: &[Record],
        said: &Option<Said>,
        new: &mut Option<PageRight<N>>,
        rights: &mut Rights<N>,
        counts: &mut Counts<N>,
    ) -> Result<Lsn, Memory>
        requires few { length recs.now ≤ 2 }
        requires joins { Joins recs.now }
        requires spelled { Each AreInRange recs.now → All HasSpelling recs.now × (length (bytes_of recs.now) ≤ 4194304) }
        requires speaker { HasSpeaker rights.old.s said.now }
        requires agrees { Agree N.opens self.old.history rights.old }
        requires consistent { IsConsistent N.opens self.old.history }
        requires page { IfSome new.old (IsNextPage N.opens self.old.history) }
        requires follows { (lsn : ℕ) → IsNext N.opens self.old.history lsn → GroupFollows N.opens self.old.history lsn recs.now said.now }
        ensures none { OnErr result ((self.new.history ≡ self.old.history) × (rights.new ≡ rights.old) × (counts.new ≡ counts.old)) }
        ensures entered { IfOk result (EntersFilled recs.now said.now new.old rights.old rights.new counts.old counts.new self.old.history self.new.history) }
        ensures disk { IsUntouched self.old self.new }
    {
        if let Some(end) = end_of(recs, said) {
            return self.enter_end(alloc, end, new, rights, counts);
        }
        let (last, before) = (self.log.last(), self.history.length());
        if last == 0 || last >= MOST_ENTRIES || before >= MOST_ENTRIES {
            return Err(Memory);
        }
        if !is_fit(&self.history, rights, new, recs) || !can_spell(recs) {
            return Err(Memory);
        }
        prepare_group(&mut self.restored, recs)?;
        let lsn = append_all(&mut self.log, alloc, recs)?;
        self.history
            .enter_group(lsn, recs, said, new.take(), rights, counts);
        note_group(&mut self.restored, before, recs);
        note_undone(&mut self.losers, before, recs);
        Ok(lsn)
    }

    /// Fills the group in and enters it. `new` is the right to the page that it makes, if it makes one.
    fn fill_in(
        &mut self,
        alloc: Global,
        group: &mut Group,
        made: Option<PageNo>,
        new: &mut Option<PageRight<N>>,
        rights: &mut Rights<N>,
        counts: &mut Counts<N>,
    ) -> Result<(), Memory>
        requires group { IsGroup group.old }
        requires joins { Joins group.old.recs }
        requires plain { list_any is_checkpoint group.old.recs ≡ false }
        requires made { made ≡ groups.made_by group.old.recs }
        requires none { made ≡ None → new.old ≡ None }
        requires some { IsSome made → IsSome new.old }
        requires page { IfSome new.old (IsNextPage N.opens self.old.history) }
        requires speaker { HasSpeaker rights.old.s group.old.said }
        requires agrees { Agree N.opens self.old.history rights.old }
        requires consistent { IsConsistent N.opens self.old.history }
        requires follows { (opening : List Record) → N.opens opening → HasNumbers opening self.old.history → MayFollow opening self.old.history group.old }
        ensures none { OnErr result ((self.new.history ≡ self.old.history) × (rights.new ≡ rights.old) × (counts.new ≡ counts.old)) }
        ensures group { OnErr result (group.new ≡ group.old) }
        ensures entered { OnOk result (EntersNow group.old group.new rights.old rights.new counts.old counts.new self.old.history self.new.history) }
        ensures disk { IsUntouched self.old self.new }
    {
        let last = self.log.last();
        if last == 0 || last >= MOST_ENTRIES {
            return Err(Memory);
        }
        let child = child_of(new);
        let before = fill(self.log.listing(), last + 1, made, child, &mut group.recs);
        let recs = group.recs.as_slice();
        match self.enter_filled(alloc, recs, &group.said, new, rights, counts) {
            Ok(lsn) => {
                group.lsn = lsn;
                Ok(())
            }
            Err(Memory) => {
                put_back(&mut group.recs, &before);
                Err(Memory)
            }
        }
    }

    /// Enters the Checkpoint that the group asks for, which the listing makes. It wants memory also where that has no form in
    /// which a log can take it, as no lawful log's has.
    fn enter_checkpoint(
        &mut self,
        alloc: Global,
        group: &mut Group,
        rights: &mut Rights<N>,
        counts: &mut Counts<N>,
    ) -> Result<(), Memory>
        requires alone { IsCheckpointAlone group.old.recs }
        requires group { IsGroup group.old }
        requires speaker { HasSpeaker rights.old.s group.old.said }
        requires agrees { Agree N.opens self.old.history rights.old }
        requires consistent { IsConsistent N.opens self.old.history }
        requires follows { (opening : List Record) → N.opens opening → HasNumbers opening self.old.history → MayFollow opening self.old.history group.old }
        ensures none { OnErr result ((self.new.history ≡ self.old.history) × (rights.new ≡ rights.old) × (counts.new ≡ counts.old)) }
        ensures group { OnErr result (group.new ≡ group.old) }
        ensures entered { OnOk result (EntersNow group.old group.new rights.old rights.new counts.old counts.new self.old.history self.new.history) }
        ensures disk { IsUntouched self.old self.new }
    {
        let checkpoint = self.log.listing().checkpoint(alloc)?;
        let mut recs = List::new(alloc);
        recs.push(Record::Checkpoint(checkpoint))?;
        let slice = recs.as_slice();
        match self.enter_filled(alloc, slice, &group.said, &mut None, rights, counts) {
            Ok(lsn) => {
                group.recs = recs;
                group.lsn = lsn;
                Ok(())
            }
            Err(Memory) => Err(Memory),
        }
    }

    /// Enters the group, where it has a form that can be entered.
    fn write(
        &mut self,
        alloc: Global,
        group: &mut Group,
        rights: &mut Rights<N>,
        counts: &mut Counts<N>,
    ) -> Result<(), Memory>
        requires group { IsGroup group.old }
        requires speaker { HasSpeaker rights.old.s group.old.said }
        requires agrees { Agree N.opens self.old.history rights.old }
        requires consistent { IsConsistent N.opens self.old.history }
        requires askable { (opening : List Record) → N.opens opening → IsAskable opening self.old.history rights.old.a group.old }
        requires timely { (opening : List Record) → N.opens opening → Each (IsTimely opening self.old.history) group.old.recs }
        requires room { (opening : List Record) → N.opens opening → HasRoomFor opening self.old.history group.old }
        ensures none { OnErr result ((self.new.history ≡ self.old.history) × (rights.new ≡ rights.old) × (counts.new ≡ counts.old)) }
        ensures group { OnErr result (group.new ≡ group.old) }
        ensures entered { OnOk result (EntersNow group.old group.new rights.old rights.new counts.old counts.new self.old.history self.new.history) }
        ensures disk { IsUntouched self.old self.new }
    {
        if is_checkpoint_alone(group.recs.as_slice()) {
            return self.enter_checkpoint(alloc, group, rights, counts);
        }
        if !can_fill(group.recs.as_slice()) {
            return Err(Memory);
        }
        let made = made_by(group.recs.as_slice());
        let mut new = self.new_right(made)?;
        let entered = self.fill_in(alloc, group, made, &mut new, rights, counts);
        if new.is_some() {
            self.made = new;
        }
        entered
    }

    /// There is no room for the write of the group: enters that its request is declined, where it has one.
    fn decline(
        &mut self,
        group: &Group,
        taken: &Taken,
        rights: &mut Rights<N>,
        pass: &mut Pass<Entry, N>,
        counts: &mut Counts<N>,
    ) -> Result<Entered, Fault>
        requires seen { pass.old.log ≡ self.old.history }
        requires taken { IsTaken N.opens self.old.history taken.now }
        requires asked { group.now.room ≡ true }
        requires lacks { (opening : List Record) → N.opens opening → LacksRoomFor opening self.old.history group.now }
        requires declines { (opening : List Record) → N.opens opening → MayBeDeclined opening self.old.history group.now.said }
        requires speaker { HasSpeaker rights.old.s group.now.said }
        requires agrees { Agree N.opens self.old.history rights.old }
        requires consistent { IsConsistent N.opens self.old.history }
        ensures declined { IsDeclined N.opens group.now result rights.old rights.new counts.old counts.new self.old.history self.new.history }
        ensures seen { pass.new.log ≡ self.new.history }
        ensures durable { pass.old.durable ≤ pass.new.durable }
        ensures disk { IsUntouched self.old self.new }
    {
        let Some(said) = &group.said else {
            return Ok(Entered::NoRoom);
        };
        if self.history.length() >= MOST_ENTRIES || said.tx == 0 {
            return Err(Fault::Memory);
        }
        let why = Outcome::Full {
            pages: taken.pages,
            pending: taken.pending,
        };
        let Some(mut s) = rights.s.take() else {
            unreachable!()
        };
        self.history
            .enter_declined::<Brand>(&said.request, &why, &mut s, pass, counts);
        rights.s = Some(s);
        Err(Fault::Full {
            pages: taken.pages,
            pending: taken.pending,
            at: self.history.length(),
        })
    }

    /// As `Entering::enter`. It says that it wants memory at an End beside another record, and at a group
    /// whose form it doesn't know: of more than two records, or of two of which the first names a transaction.
    pub fn enter(
        &mut self,
        alloc: Global,
        group: &mut Group,
        rights: &mut Rights<N>,
        pass: &mut Pass<Entry, N>,
        counts: &mut Counts<N>,
    ) -> Result<Entered, Fault>
        requires group { IsGroup group.old }
        requires rights { HasRights N.opens pass.old.log rights.old group.old }
        requires askable { (opening : List Record) (h : List Entry) → N.opens opening → IsMoment N.opens pass.old.log rights.old h → IsAskable opening h rights.old.a group.old }
        requires timely { (opening : List Record) → N.opens opening → Each (WasTimely opening pass.old.log) group.old.recs }
        ensures entered { EntersGroup N.opens N.entries N.session_entries group.old group.new result (known counts.old pass.old rights.old) (known counts.new pass.new rights.new) }
        ensures filled { OnEntered result (IsFilledIn group.old group.new rights.old rights.new) }
        ensures answer { IfOk result (IsAnswer N.opens pass.new.log group.old) }
        ensures full { IfErr result (IsFull N.opens pass.new.log group.old) }
        ensures same { KeepsRights result rights.old rights.new }
        ensures group { KeepsGroup result group.old group.new }
        ensures refused { IfErr result (FailsToEnter OrFull) }
        ensures ends { Ends N.opens N.log_faults N.made counts.old counts.new pass.new.log result }
        ensures disk { IsUntouched self.old self.new }
        ensures learns { LearnsEnd counts.old counts.new self.new.ended }
    {
        self.history.see(rights, pass, counts);
        check_open(&self.log, &mut self.faults, counts)?;
        if let Some(place) = self.late(group) {
            return Ok(Entered::Late(place));
        }
        let taken = self.taken()?;
        if !self.has_room(group, &taken) {
            let declined = self.decline(group, &taken, rights, pass, counts);
            self.history.see(rights, pass, counts);
            return declined;
        }
        match self.write(alloc, group, rights, counts) {
            Ok(()) => {
                self.history.see(rights, pass, counts);
                Ok(Entered::At(self.history.length()))
            }
            Err(_) => Err(Fault::Memory),
        }
    }

    /// Where the entry stands that came before a record of the group, if one did.
    fn late(&self, group: &Group) -> Option<Pos>
        requires consistent { IsConsistent N.opens self.now.history }
        ensures none { IfNone result ((opening : List Record) → N.opens opening → Each (WasTimely opening self.now.history) group.now.recs → Each (IsTimely opening self.now.history) group.now.recs) }
        ensures late { IfSome result (λ place. (opening : List Record) → N.opens opening → IsLate opening self.now.history place group.now.recs) }
        ensures kind { IfSome result (λ place. IsTrue (list_any can_be_late group.now.recs)) }
    {
        let recs = group.recs.as_slice();
        first_late(self.log.listing(), &self.restored, &self.losers, recs)
    }
}
