//! What a life has done of each loser.
ghost use Rattle.std.specs.Prelude.{◌≡◌, [], map, filter, IfOk};
ghost use Rattle.std.specs.List.{find};
ghost use Rattle.losers.specs.declared.losers.LoserState.{LoserState};
ghost use Rattle.losers.specs.Losers.{ended_at, is_left, is_of, undone_at, untouched};

use std::alloc::{AllocError, Global};
use std::marker::Model;
use store_model::{List, Memory, Pos, TxId};

/// A loser: where in the history its last Undo or End stands, 0 for none, and whether it has its End.
#[derive(Clone, Copy)]
pub struct LoserState {
    pub tx: TxId,
    pub place: Pos,
    pub over: bool,
}

/// The losers of an opening log. Contracts see the list of them.
#[derive(Drop)]
pub struct Losers {
    items: Vec<LoserState>,
}

impl Model for Losers {
    ghost use Rattle.std.specs.Prelude.{List};
    ghost use Rattle.losers.specs.declared.losers.LoserState.{LoserState};

    ghost Value = { List LoserState };

    ghost view = { λ l. l.items.items };
}

/// The state of each of these losers, of which nothing is done yet.
fn states_of(alloc: Global, txs: &[TxId]) -> Result<Vec<LoserState>, AllocError>
    ensures { IfOk result (λ made. made.items ≡ map untouched txs.now) }
{
    let mut made = Vec::with_capacity(alloc, txs.len())?;
    for tx in txs {
        made.push(LoserState {
            tx: *tx,
            place: 0,
            over: false,
        })?;
    }
    Ok(made)
}

/// The first of these that is the transaction.
fn state_of(items: &[LoserState], tx: TxId) -> Option<LoserState>
    ensures { result ≡ find (is_of tx) items.now }
{
    for loser in items {
        if tx == loser.tx {
            return Some(*loser);
        }
    }
    None
}

/// The first of these that has no End.
fn first_left(items: &[LoserState]) -> Option<LoserState>
    ensures { result ≡ find is_left items.now }
{
    for loser in items {
        if !loser.over {
            return Some(*loser);
        }
    }
    None
}

/// Those of these that have no End.
fn all_left(alloc: Global, items: &[LoserState]) -> Result<Vec<TxId>, AllocError>
    ensures { IfOk result (λ txs. txs.items ≡ map (λ (x : LoserState). x.tx) (filter is_left items.now)) }
{
    let mut txs = Vec::with_capacity(alloc, items.len())?;
    for loser in items {
        if !loser.over {
            txs.push(loser.tx)?;
        }
    }
    Ok(txs)
}

/// The state behind an Undo of a transaction, which stands here.
fn behind_undo(loser: &LoserState, tx: TxId, place: Pos) -> LoserState
    ensures { result ≡ undone_at tx place loser.now }
{
    if tx == loser.tx {
        LoserState { place, ..*loser }
    } else {
        *loser
    }
}

/// The state behind an End of a transaction, which stands here.
fn behind_end(loser: &LoserState, tx: TxId, place: Pos) -> LoserState
    ensures { result ≡ ended_at tx place loser.now }
{
    if tx == loser.tx {
        LoserState {
            tx,
            place,
            over: true,
        }
    } else {
        *loser
    }
}

/// An Undo of the transaction stands here.
fn set_undone(items: &mut Vec<LoserState>, tx: TxId, place: Pos)
    ensures { items.new.items ≡ map (undone_at tx place) items.old.items }
{
    for loser in items.iter_mut() {
        *loser = behind_undo(loser, tx, place);
    }
}

/// The End of the transaction stands here.
fn set_ended(items: &mut Vec<LoserState>, tx: TxId, place: Pos)
    ensures { items.new.items ≡ map (ended_at tx place) items.old.items }
{
    for loser in items.iter_mut() {
        *loser = behind_end(loser, tx, place);
    }
}

impl Losers {
    /// No losers.
    pub fn none(alloc: Global) -> Losers
        ensures { result ≡ [] }
    {
        Losers {
            items: Vec::new(alloc),
        }
    }

    /// These losers, of which nothing is done yet.
    pub fn new(alloc: Global, txs: &[TxId]) -> Result<Losers, Memory>
        ensures { IfOk result (λ made. made ≡ map untouched txs.now) }
    {
        let items = states_of(alloc, txs)?;
        Ok(Losers { items })
    }

    /// All of them.
    pub fn all(&self) -> &[LoserState]
        ensures { result.now ≡ self.now }
    {
        &self.items
    }

    /// What the life has done of the transaction, if it is a loser.
    pub fn state(&self, tx: TxId) -> Option<LoserState>
        ensures { result ≡ find (is_of tx) self.now }
    {
        state_of(&self.items, tx)
    }

    /// An Undo of the transaction stands here.
    pub fn undone(&mut self, tx: TxId, place: Pos)
        ensures { self.new ≡ map (undone_at tx place) self.old }
    {
        set_undone(&mut self.items, tx, place);
    }

    /// The End of the transaction stands here.
    pub fn ended(&mut self, tx: TxId, place: Pos)
        ensures { self.new ≡ map (ended_at tx place) self.old }
    {
        set_ended(&mut self.items, tx, place);
    }

    /// The first loser without an End, if there is one.
    pub fn first_left(&self) -> Option<LoserState>
        ensures { result ≡ find is_left self.now }
    {
        first_left(&self.items)
    }

    /// All losers without an End.
    pub fn left(&self, alloc: Global) -> Result<List<TxId>, Memory>
        ensures { IfOk result (λ txs. txs ≡ map (λ (x : LoserState). x.tx) (filter is_left self.now)) }
    {
        Ok(List::from_vec(all_left(alloc, &self.items)?))
    }
}
