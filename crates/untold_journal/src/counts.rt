//! A thread's shares of the ledgers.

use page_ops::{Entries, Life, LogFaults, Made, SessionEntries, VaultFaults};
use std::marker::Model;
use std::sync::ledger::Share;

/// A thread's shares of the ledgers of its life. No fault is counted with them, and the life has no end.
#[derive(Drop)]
pub struct Counts<N: Life> {
    pub entries: Share<Entries<N>>,
    pub session_entries: Share<SessionEntries<N>>,
    pub log_faults: Share<LogFaults<N>>,
    pub vault_faults: Share<VaultFaults<N>>,
    pub made: Share<Made<N>>,
}

impl<N: Life> Model for Counts<N> {
    ghost use Rattle.std.specs.Prelude.{◌≡◌, ◌<◌, None};
    ghost use Rattle.page_ops.specs.Seeing.{Account};

    ghost Value = { Account };

    ghost view = { λ c. record {
      entries = record { parts = c.entries.parts; amount = c.entries.amount };
      session_entries = record { parts = c.session_entries.parts; amount = c.session_entries.amount };
      log_faults = record { parts = c.log_faults.parts; amount = c.log_faults.amount };
      vault_faults = record { parts = c.vault_faults.parts; amount = c.vault_faults.amount };
      made = record { parts = c.made.parts; amount = c.made.amount };
      ended = None;
      calls = None;
    } };

    ghost invariant = { λ c. (0 < c.entries.parts) × (0 < c.session_entries.parts) × (0 < c.made.parts) × (c.log_faults.amount ≡ 0) × (c.vault_faults.amount ≡ 0) };
}
