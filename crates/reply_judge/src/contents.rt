//! The current contents of a log.
ghost use Rattle.std.specs.Prelude.{◌≡◌, ◌↔◌, [], ◌∷◌, ◌++◌, ℕ, List, Option, Some, None, OnOk, OnErr, IsTrue, IfSome, IfNone, ◌≢◌, filter, map};
ghost use Rattle.std.specs.Option.{option_copied};
ghost use Rattle.std.specs.FinMap as finite;
ghost use Rattle.store_model.specs.Contents.{Contents, pair_of, pairs_in, set_to};
ghost use Rattle.store_model.specs.Operator.{meaning};
ghost use Rattle.store_model.specs.Range.{has_key};
ghost use Rattle.wal_record.specs.Contents.{after};
ghost use Rattle.store_model.specs.declared.pair.Pair.{Pair};
ghost use Rattle.wal_record.specs.declared.record.Record.TheVariants as kinds;
ghost use Rattle.reply_judge.specs.Contents.{HasValues, IsContentsOf, own_pairs};

use operators::Operators;
use std::alloc::Global;
use std::collections::BTreeMap;
use store_model::{Key, KeyRange, Memory, Pair, Value};
use wal_record::{Apply, Record};

/// The pairs that all writes and undos of a log made.
#[derive(Drop)]
pub struct CurrentContents {
    pairs: BTreeMap<Key, Value>,
}

/// The key has this value. Where memory runs out, each one has the value that it had.
fn put(pairs: &mut BTreeMap<Key, Value>, key: &Key, value: &Value) -> Result<(), Memory>
    ensures ok { (m : Contents) → HasValues m pairs.old → OnOk result (HasValues (set_to m key.now (Some value.now)) pairs.new) }
    ensures err { (m : Contents) → HasValues m pairs.old → OnErr result (HasValues m pairs.new) }
{
    pairs.insert(key.copied(), value.copied())?;
    Ok(())
}

/// The key has no value.
fn take(pairs: &mut BTreeMap<Key, Value>, key: &Key)
    ensures { (m : Contents) → HasValues m pairs.old → HasValues (set_to m key.now None) pairs.new }
{
    pairs.remove(key);
}

/// Whether the key lies in the range.
fn is_in(range: &KeyRange, key: &Key) -> bool
    ensures { result ≡ has_key range.now key.now }
{
    !range.low().is_above(key) && range.high().is_above(key)
}

/// Whether the pair has this key and this value.
fn is_pair(pair: &Pair, key: &Key, value: &Value) -> bool
    ensures { IsTrue result ↔ (pair.now ≡ pair_of (key.now, value.now)) }
{
    pair.key == *key && pair.value == *value
}

/// The other pairs, where the first one has this key and this value.
fn rest_behind<'a>(pairs: &'a [Pair], key: &Key, value: &Value) -> Option<&'a [Pair]>
    ensures some { IfSome result (λ rest. pairs.now ≡ pair_of (key.now, value.now) ∷ rest.now) }
    ensures none { IfNone result ((rest : List Pair) → pairs.now ≢ pair_of (key.now, value.now) ∷ rest) }
{
    let (first, rest) = pairs.split_first()?;
    if is_pair(first, key, value) {
        Some(rest)
    } else {
        None
    }
}

/// The pairs behind what the range has of this key.
fn left_behind<'a>(
    range: &KeyRange,
    pairs: &'a [Pair],
    key: &Key,
    value: &Value,
) -> Option<&'a [Pair]>
    ensures some { IfSome result (λ rest. pairs.now ≡ own_pairs range.now key.now value.now ++ rest.now) }
    ensures none { IfNone result ((rest : List Pair) → pairs.now ≢ own_pairs range.now key.now value.now ++ rest) }
{
    if is_in(range, key) {
        rest_behind(pairs, key, value)
    } else {
        Some(pairs)
    }
}

/// What the operator makes of the value that its key has.
fn made_by(operators: &Operators, old: Option<&Value>, apply: &Apply) -> Option<Value>
    ensures { result ≡ meaning apply.now.operator (option_copied old.entry) apply.now.argument }
{
    match operators.apply(apply.operator, old, &apply.argument) {
        Some(made) => Value::new(made.as_bytes()),
        None => None,
    }
}

impl CurrentContents {
    /// Those of an empty log.
    pub fn new(alloc: Global) -> CurrentContents
        ensures { IsContentsOf finite.empty result }
    {
        CurrentContents {
            pairs: BTreeMap::new(alloc),
        }
    }

    /// The value of a key.
    pub fn get(&self, key: &Key) -> Option<&Value>
        ensures { (m : Contents) → IsContentsOf m self.now → option_copied result ≡ finite.get m key.now }
    {
        self.pairs.get(key)
    }

    /// Whether these are the pairs of the range.
    pub fn are_pairs(&self, range: &KeyRange, pairs: &[Pair]) -> bool
        ensures { (m : Contents) → IsContentsOf m self.now → IsTrue result ↔ (pairs.now ≡ pairs_in range.now m) }
    {
        // (The call tells that the keys rise.)
        let _pairs = self.pairs.len();
        let mut left = pairs;
        for (key, value) in &self.pairs {
            match left_behind(range, left, key, value) {
                Some(rest) => left = rest,
                None => return false,
            }
        }
        left.is_empty()
    }

    /// The key gets this value, or none.
    fn set(&mut self, key: &Key, value: &Option<Value>) -> Result<(), Memory>
        ensures ok { (m : Contents) → IsContentsOf m self.old → OnOk result (IsContentsOf (set_to m key.now value.now) self.new) }
        ensures err { (m : Contents) → IsContentsOf m self.old → OnErr result (IsContentsOf m self.new) }
    {
        match value {
            Some(value) => put(&mut self.pairs, key, value),
            None => {
                take(&mut self.pairs, key);
                Ok(())
            }
        }
    }

    fn apply(&mut self, operators: &Operators, apply: &Apply) -> Result<(), Memory>
        ensures ok { (m : Contents) → IsContentsOf m self.old → OnOk result (IsContentsOf (after m (kinds.Apply apply.now)) self.new) }
        ensures err { (m : Contents) → IsContentsOf m self.old → OnErr result (IsContentsOf m self.new) }
    {
        match made_by(operators, self.get(&apply.key), apply) {
            Some(made) => put(&mut self.pairs, &apply.key, &made),
            None => Ok(()),
        }
    }

    /// The next record. Where memory runs out, the contents are as before it.
    pub fn note(&mut self, operators: &Operators, entered: &Record) -> Result<(), Memory>
        ensures ok { (m : Contents) → IsContentsOf m self.old → OnOk result (IsContentsOf (after m entered.now) self.new) }
        ensures err { (m : Contents) → IsContentsOf m self.old → OnErr result (IsContentsOf m self.new) }
    {
        match entered {
            Record::Write(write) => self.set(&write.key, &write.new),
            Record::Apply(apply) => self.apply(operators, apply),
            Record::Undo(undo) => self.set(&undo.key, &undo.restores),
            _ => Ok(()),
        }
    }
}
