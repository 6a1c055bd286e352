//! A caller's token of a session.
ghost use Rattle.std.specs.Prelude.{◌≡◌, ◌<◌, ◌≤◌, false, true};
ghost use mathlib.Core.List.{IsPrefix};

use books::SessionRight;
use front::{Board, Pass};
use page_ops::Life;
use std::marker::Model;
use store_model::TxId;
use wal_record::Entry;

/// A session: the right to it, by which its requests are entered, and a pass that has seen what they saw. Contracts see
/// what the right claims, the session's number and its transaction among it, and what the pass has seen.
#[derive(Drop)]
pub struct Session<N: Life> {
    /// There wherever the session is handed on.
    pub(crate) right: Option<SessionRight<N>>,
    pub(crate) pass: Pass<Entry, N>,
    /// Whether a commit of its transaction was refused, so that the transaction may be committed.
    pub(crate) undecided: bool,
}

impl<N: Life> Model for Session<N> {
    ghost use Rattle.engine.specs.Sittings.{IsSeated, Sitting, claim_or_none};

    ghost Value = { Sitting };

    ghost view = { λ s. record { claim = claim_or_none s.right; seen = s.pass } };

    ghost invariant = { λ s. IsSeated N.opens s.right s.pass.log s.undecided };
}

impl<N: Life> Session<N> {
    /// The number of its transaction, 0 where it has none.
    pub fn transaction(&self) -> TxId
        ensures { result ≡ self.now.claim.tx }
    {
        match &self.right {
            Some(right) => right.tx(),
            None => 0,
        }
    }

    /// Whether it has a transaction.
    pub fn is_active(&self) -> bool
        ensures some { result ≡ true → 0 < self.now.claim.tx }
        ensures none { result ≡ false → self.now.claim.tx ≡ 0 }
    {
        self.transaction() > 0
    }

    /// Its pass takes in what another one has seen.
    pub fn meet(&mut self, board: &Board<Entry, N>, pass: &mut Pass<Entry, N>)
        ensures this { IsPrefix self.old.seen.log self.new.seen.log }
        ensures other { IsPrefix pass.old.log self.new.seen.log }
        ensures durable { (self.old.seen.durable ≤ self.new.seen.durable) × (pass.old.durable ≤ self.new.seen.durable) }
        ensures claim { self.new.claim ≡ self.old.claim }
        ensures same { pass.new ≡ pass.old }
    {
        self.pass.meet(board, pass.copy(board));
    }

    /// A pass that has seen what its requests saw.
    pub fn seen(&mut self, board: &Board<Entry, N>) -> Pass<Entry, N>
        ensures seen { result ≡ self.old.seen }
        ensures same { self.new ≡ self.old }
    {
        self.pass.copy(board)
    }
}
