//! The part of the journal that descents, system transactions and pools need.
ghost use Rattle.std.specs.Prelude.{◌≡◌, ℕ, List, [], None, Some, length, min, ◌≤◌, ◌-◌, ◌^◌, OnOk, OnErr, IfOk, IfErr, IfSome, IfNone};
ghost use Rattle.wal_record.specs.Books.{page_book};
ghost use Rattle.wal_record.specs.Chains.{pages};
ghost use Rattle.wal_record.specs.History.{life_log};
ghost use Rattle.wal_record.specs.OpenWrites.{pending};
ghost use Rattle.wal_record.specs.Rules.{HasSpelling};
ghost use Rattle.wal_record.specs.Upkeep.{written_lsn};
ghost use Rattle.wal_record.specs.declared.record.Record.{Record};
ghost use Rattle.wal_record.specs.declared.entry.Entry.{Entry};
ghost use Rattle.page_ops.specs.Asking.{IsAskable, WasTimely};
ghost use Rattle.page_ops.specs.Causes.{Ends, FailsToEnter, FailsToFlush, FailsToRead, MeetsNoFault, NoOther, OrFull};
ghost use Rattle.page_ops.specs.Claims.{no_claims};
ghost use Rattle.page_ops.specs.Groups.{Each, IsGroup, HasRights};
ghost use Rattle.page_ops.specs.Outcomes.{EntersGroup, IsAnswer, IsFilledIn, IsFound, IsFull, IsListed, KeepsGroup, KeepsRights, OnEntered, repairs};
ghost use Rattle.page_ops.specs.Seeing.{Account, Enters, IsMoment, Looks, known};

use crate::ground::Ground;
use crate::group::Group;
use crate::life::Life;
use crate::outcome::{Entered, Found, Listed};
use crate::rights::Rights;
use books::PageRight;
use front::Pass;
use std::alloc::Global;
use std::sync::Wait;
use store_model::{Fault, Lsn, PageNo, Pos};
use wal_record::Entry;

/// A thread's way to the journal, for what descents, system transactions and pools need of it. Each call is one hold of
/// the journal's lock, and shows its pass the whole history as it is then. The durable number that the pass has seen, the
/// LSN up to which the log is durable, doesn't fall.
///
/// Conditions speak of any moment since the pass last saw the history at which the rights handed in agree with it: what
/// a right stands for, nobody else can change.
pub trait Entering<N: Life> {
    /// What was entered and failed through it, and what it knows of the life's end.
    ghost account: { Self → Account };

    /// What the threads of the life share.
    fn ground(&self) -> &Ground<N>;

    /// How many faults of the log disk came at device calls made through it.
    fn log_faults(&self) -> u64
        ensures { result ≡ min (account self.now).log_faults.amount (2 ^ 64 - 1) };

    /// How many faults of the vault came at device calls made through it.
    fn vault_faults(&self) -> u64
        ensures { result ≡ min (account self.now).vault_faults.amount (2 ^ 64 - 1) };

    /// Enters a group: fills its records and its LSN in, and raises the rights to their LSNs, and that of the session to its new
    /// numbers. The right to a page that the group makes is put into `c`. Refused with `Ended` and want of memory, and with
    /// `Full` where the group asks for room for a write and there is none, whereupon its request is entered as declined.
    /// Where it isn't entered the group and the rights are as before, but for the number of entries of a session whose
    /// request is declined.
    fn enter<R: Wait>(
        &mut self,
        rt: &R,
        alloc: Global,
        group: &mut Group,
        rights: &mut Rights<N>,
        pass: &mut Pass<Entry, N>,
    ) -> Result<Entered, Fault>
        requires group { IsGroup group.old }
        requires rights { HasRights N.opens pass.old.log rights.old group.old }
        requires askable { (opening : List Record) (h : List Entry) → N.opens opening → IsMoment N.opens pass.old.log rights.old h → IsAskable opening h rights.old.a group.old }
        // The loser's write was its last open one, or the segment unrestored, when the caller saw it.
        requires timely { (opening : List Record) → N.opens opening → Each (WasTimely opening pass.old.log) group.old.recs }
        ensures entered { EntersGroup N.opens N.entries N.session_entries group.old group.new result (known (account self.old) pass.old rights.old) (known (account self.new) pass.new rights.new) }
        ensures filled { OnEntered result (IsFilledIn group.old group.new rights.old rights.new) }
        ensures answer { IfOk result (IsAnswer N.opens pass.new.log group.old) }
        ensures full { IfErr result (IsFull N.opens pass.new.log group.old) }
        ensures same { KeepsRights result rights.old rights.new }
        ensures group { KeepsGroup result group.old group.new }
        ensures refused { IfErr result (FailsToEnter OrFull) }
        ensures ends { Ends N.opens N.log_faults N.made (account self.old) (account self.new) pass.new.log result };

    /// Enters that the page was repaired, and tells where. None exactly where no image of it was written since the last
    /// loss of the data device; then nothing is entered.
    fn repaired<R: Wait>(
        &mut self,
        rt: &R,
        alloc: Global,
        right: &PageRight<N>,
        pass: &mut Pass<Entry, N>,
    ) -> Result<Option<Pos>, Fault>
        ensures entered { Enters N.opens N.entries N.session_entries (known (account self.old) pass.old no_claims) (repairs right.now.page result) (known (account self.new) pass.new no_claims) }
        ensures place { IfOk result (λ pos. IfSome pos (λ p. p ≡ length pass.new.log)) }
        ensures none { IfOk result (λ pos. IfNone pos ((opening : List Record) → N.opens opening → written_lsn (life_log opening pass.new.log) right.now.page ≡ 0)) }
        ensures refused { IfErr result (FailsToEnter NoOther) }
        ensures ends { Ends N.opens N.log_faults N.made (account self.old) (account self.new) pass.new.log result };

    /// Shows the pass the whole history. It enters nothing and takes no memory. The rights come back as they were, and
    /// agree with that history.
    fn see<R: Wait>(&mut self, rt: &R, rights: &mut Rights<N>, pass: &mut Pass<Entry, N>)
        ensures same { rights.new ≡ rights.old }
        ensures seen { Enters N.opens N.entries N.session_entries (known (account self.old) pass.old rights.old) [] (known (account self.new) pass.new rights.new) }
        ensures calm { MeetsNoFault (account self.old) (account self.new) };

    /// Makes the log durable up to this LSN, or whole where its last LSN is less, which the pass then has seen. It enters
    /// nothing.
    fn flush<R: Wait>(&mut self, rt: &R, lsn: Lsn, pass: &mut Pass<Entry, N>) -> Result<(), Fault>
        ensures seen { Looks N.opens N.entries N.session_entries (account self.old) pass.old (account self.new) pass.new }
        ensures durable { OnOk result ((opening : List Record) → N.opens opening → min lsn (length (life_log opening pass.new.log)) ≤ pass.new.durable) }
        ensures refused { IfErr result FailsToFlush }
        ensures ends { Ends N.opens N.log_faults N.made (account self.old) (account self.new) pass.new.log result };

    /// The record of an LSN of the log, or the standing archive run that has it where the log has forgotten it.
    fn read<R: Wait>(
        &mut self,
        rt: &R,
        alloc: Global,
        lsn: Lsn,
        pass: &mut Pass<Entry, N>,
    ) -> Result<Found, Fault>
        requires there { (opening : List Record) → N.opens opening → (1 ≤ lsn) × (lsn ≤ length (life_log opening pass.old.log)) }
        ensures seen { Looks N.opens N.entries N.session_entries (account self.old) pass.old (account self.new) pass.new }
        ensures found { IfOk result (IsFound N.opens pass.new.log lsn) }
        ensures refused { IfErr result (FailsToRead N.opens) }
        ensures ends { Ends N.opens N.log_faults N.made (account self.old) (account self.new) pass.new.log result };

    /// The ends of the page's traces, and whether its segment is unrestored. It takes no memory for itself.
    fn listed<R: Wait>(
        &mut self,
        rt: &R,
        page: PageNo,
        pass: &mut Pass<Entry, N>,
    ) -> Result<Listed, Fault>
        ensures seen { Looks N.opens N.entries N.session_entries (account self.old) pass.old (account self.new) pass.new }
        ensures listed { IfOk result (IsListed N.opens pass.new.log page) }
        ensures refused { IfErr result (FailsToEnter NoOther) }
        ensures ends { Ends N.opens N.log_faults N.made (account self.old) (account self.new) pass.new.log result };

    /// How many pages have an image.
    fn pages<R: Wait>(&mut self, rt: &R, pass: &mut Pass<Entry, N>) -> u32
        ensures seen { Looks N.opens N.entries N.session_entries (account self.old) pass.old (account self.new) pass.new }
        ensures count { (opening : List Record) → N.opens opening → result ≡ pages (life_log opening pass.new.log) }
        ensures calm { MeetsNoFault (account self.old) (account self.new) };

    /// How many writes aren't undone yet, of all unfinished transactions and losers.
    fn pending<R: Wait>(&mut self, rt: &R, pass: &mut Pass<Entry, N>) -> u32
        ensures seen { Looks N.opens N.entries N.session_entries (account self.old) pass.old (account self.new) pass.new }
        ensures count { (opening : List Record) → N.opens opening → result ≡ pending (life_log opening pass.new.log) }
        ensures calm { MeetsNoFault (account self.old) (account self.new) };
}
