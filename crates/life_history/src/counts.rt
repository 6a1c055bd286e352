//! A thread's shares of the ledgers.
ghost use Rattle.std.specs.Prelude.{◌≡◌, ◌<◌, ⊤, Some, IfSome};
ghost use Rattle.life_history.specs.Kept.{HasCause};

use page_ops::{Entries, Life, LogFaults, Made, SessionEntries, VaultFaults};
use std::marker::Model;
use std::sync::ledger::{Book, Share};
use store_model::Lsn;

/// A thread's shares of the ledgers of its life, and the LSN up to which the log was durable as the life ended, where the
/// thread knows that it has. It calls no vault, so no fault of one is counted.
#[derive(Drop)]
pub struct Counts<N: Life> {
    pub entries: Share<Entries<N>>,
    pub session_entries: Share<SessionEntries<N>>,
    pub log_faults: Share<LogFaults<N>>,
    pub vault_faults: Share<VaultFaults<N>>,
    pub made: Share<Made<N>>,
    pub ended: Option<Lsn>,
    /// How many faults of the log disk were counted.
    pub faults: u64,
}

impl<N: Life> Model for Counts<N> {
    ghost use Rattle.std.specs.Prelude.{◌≡◌, ◌<◌, ◌-◌, ◌^◌, min, None};
    ghost use Rattle.page_ops.specs.Seeing.{Account};
    ghost use Rattle.life_history.specs.Kept.{KnowsWhy};

    ghost Value = { Account };

    ghost view = { λ c. record {
      entries = record { parts = c.entries.parts; amount = c.entries.amount };
      session_entries = record { parts = c.session_entries.parts; amount = c.session_entries.amount };
      log_faults = record { parts = c.log_faults.parts; amount = c.log_faults.amount };
      vault_faults = record { parts = c.vault_faults.parts; amount = c.vault_faults.amount };
      made = record { parts = c.made.parts; amount = c.made.amount };
      ended = c.ended;
      calls = None;
    } };

    ghost invariant = { λ c. (0 < c.entries.parts) × (0 < c.session_entries.parts) × (0 < c.log_faults.parts) × (0 < c.made.parts) × (c.vault_faults.amount ≡ 0) × (c.faults ≡ min c.log_faults.amount (2 ^ 64 - 1)) × KnowsWhy N.log_faults c.ended (record { parts = c.log_faults.parts; amount = c.log_faults.amount }) };
}

impl<N: Life> Counts<N> {
    ghost use Rattle.std.specs.Prelude.{◌≡◌, ◌<◌, ◌+◌, ◌-◌, ◌^◌, min, None};

    /// It knows then that the life has ended, since the log disk failed.
    pub fn end(&mut self, at: Lsn)
        requires cause { HasCause N.log_faults self.old.log_faults }
        ensures { self.new ≡ record self.old { ended = Some at } }
    {
        self.ended = Some(at);
    }

    /// The LSN up to which the log was durable as the life ended, if it knows that it has.
    pub fn ended(&self) -> Option<Lsn>
        ensures known { result ≡ self.now.ended }
        ensures cause { IfSome result (λ at. HasCause N.log_faults self.now.log_faults) }
    {
        self.ended
    }

    /// Counts a fault of the log disk, which has ended the life. It knows that then.
    pub fn fail(&mut self, faults: &mut Book<LogFaults<N>>, at: Lsn)
        ensures total { faults.new.total ≡ faults.old.total + 1 }
        ensures untold { self.old.calls ≡ None }
        ensures counts { self.new ≡ record self.old { log_faults = record { parts = self.old.log_faults.parts; amount = self.old.log_faults.amount + 1 }; ended = Some at } }
    {
        faults.add(&mut self.log_faults, 1);
        self.faults = self.faults.saturating_add(1);
        self.ended = Some(at);
    }

    /// How many faults of the log disk were counted with it.
    pub fn log_faults(&self) -> u64
        ensures { result ≡ min self.now.log_faults.amount (2 ^ 64 - 1) }
    {
        self.faults
    }

    /// How many faults of the vault were counted with it: none, since it calls no vault.
    pub fn vault_faults(&self) -> u64
        ensures { result ≡ min self.now.vault_faults.amount (2 ^ 64 - 1) }
    {
        let _ = &self.vault_faults;
        0
    }

    /// One part of each share, with which nothing was counted yet, where it doesn't know of an end.
    pub fn split(&mut self) -> Counts<N>
        requires open { self.old.ended ≡ None }
        requires entries { 1 < self.old.entries.parts }
        requires session_entries { 1 < self.old.session_entries.parts }
        requires log_faults { 1 < self.old.log_faults.parts }
        requires vault_faults { 1 < self.old.vault_faults.parts }
        requires made { 1 < self.old.made.parts }
        ensures entries { (self.new.entries.parts + 1 ≡ self.old.entries.parts) × (self.new.entries.amount ≡ self.old.entries.amount) }
        ensures session_entries { self.new.session_entries.parts + 1 ≡ self.old.session_entries.parts }
        ensures log_faults { self.new.log_faults.parts + 1 ≡ self.old.log_faults.parts }
        ensures vault_faults { self.new.vault_faults.parts + 1 ≡ self.old.vault_faults.parts }
        ensures made { self.new.made.parts + 1 ≡ self.old.made.parts }
        ensures part { (result.entries.parts ≡ 1) × (result.entries.amount ≡ 0) }
    {
        Counts {
            entries: self.entries.split_off(1, 0),
            session_entries: self.session_entries.split_off(1, 0),
            log_faults: self.log_faults.split_off(1, 0),
            vault_faults: self.vault_faults.split_off(1, 0),
            made: self.made.split_off(1, 0),
            ended: None,
            faults: 0,
        }
    }

    /// Takes a part of each share back, with what was counted with it. Of an end it asks anew.
    pub fn join(&mut self, other: Counts<N>)
        ensures parts { self.new.entries.parts ≡ self.old.entries.parts + other.entries.parts }
        ensures amount { self.new.entries.amount ≡ self.old.entries.amount + other.entries.amount }
    {
        let Counts {
            entries,
            session_entries,
            log_faults,
            vault_faults,
            made,
            ended: _,
            faults,
        } = other;
        self.entries.merge(entries);
        self.session_entries.merge(session_entries);
        self.log_faults.merge(log_faults);
        self.vault_faults.merge(vault_faults);
        self.made.merge(made);
        self.ended = None;
        self.faults = self.faults.saturating_add(faults);
    }
}
