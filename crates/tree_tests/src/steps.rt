//! Changes of the keys of a tree of one thread.
ghost use Rattle.std.specs.Prelude.{◌≡◌, ◌<◌, List, IfOk, IfErr, IfSome, IsSome, IsTrue, true};
ghost use mathlib.Core.List.{IsPrefix};
ghost use Rattle.page_ops.specs.Claims.{SessionAgrees};
ghost use Rattle.wal_record.specs.Images.{IsLeafOf};
ghost use Rattle.wal_record.specs.Rules.{is_number};
ghost use Rattle.wal_record.specs.declared.record.Record.{Record};
ghost use Rattle.foster_tree.specs.Nows.{IsNow};
ghost use Rattle.tree_tests.specs.ChangesOf.{IsChangeOf};

use adoption::find_leaf_for_write;
use books::SessionRight;
use foster_tree::{find_leaf, lookup};
use front::Pass;
use leaf_writes::{Change, How, write_key};
use operators::join;
use page_ops::{Entering, Held, Life, Pages, Rights};
use std::alloc::Global;
use std::sync::Wait;
use store_model::{Fault, HIGHEST, Key, OpValue, TxId, Value};
use wal_record::Entry;

/// What becomes of a key: it is put, or deleted where there are no letters; or so many letters are joined to its value; or
/// its last write is taken back, and it has so many letters again, or none.
#[derive(Clone, Copy)]
pub(crate) enum Deed {
    Write,
    Join,
    Undo,
}

/// Keys from one number on and below another, each with so many bytes, and the letters of their values.
#[derive(Clone, Copy)]
pub(crate) struct Keys {
    pub(crate) deed: Deed,
    pub(crate) from: u32,
    pub(crate) behind: u32,
    pub(crate) length: usize,
    pub(crate) letters: usize,
}

/// The digit of a number at the place of this power of ten.
fn digit(number: u32, power: u32) -> u8
    requires { 0 < power }
{
    match u8::try_from(number / power % 10) {
        Ok(digit) => b'0'.saturating_add(digit),
        Err(_) => b'0',
    }
}

/// Of the number 7 the key is k007, with letters x behind it up to its length.
pub(crate) fn key_of(number: u32, length: usize) -> Option<Key> {
    let mut bytes = [b'x'; 64];
    bytes[0] = b'k';
    bytes[1] = digit(number, 100);
    bytes[2] = digit(number, 10);
    bytes[3] = digit(number, 1);
    Key::new(bytes.get(..length)?)
}

/// So many letters v, or none.
fn value_of(letters: usize) -> Option<Value> {
    if letters == 0 {
        return None;
    }
    Value::new([b'v'; 256].get(..letters)?)
}

/// The operator join, which puts so many letters behind this value.
#[tactic(auto, unfolding(operators::specs::Means::made_by))]
fn join_of(letters: usize, tx: TxId, key: Key, old: Option<Value>) -> Option<Change>
    ensures { IfSome result (IsChangeOf tx key old) }
{
    let argument = OpValue::new([b'v'; 64].get(..letters)?)?;
    let joined = join(&old, &argument)?;
    Some(Change {
        tx,
        key,
        new: Some(Value::new(joined.as_bytes())?),
        how: How::Apply {
            old,
            operator: 3,
            argument,
        },
    })
}

/// The change of a key that has this value.
fn change_of(keys: &Keys, tx: TxId, key: &Key, old: &Option<Value>) -> Option<Change>
    ensures { IfSome result (IsChangeOf tx key.now old.now) }
{
    let (key, new) = (key.copied(), value_of(keys.letters));
    let old = match old {
        Some(value) => Some(value.copied()),
        None => None,
    };
    match keys.deed {
        Deed::Write if old.is_some() || new.is_some() => Some(Change {
            tx,
            key,
            new,
            how: How::Write { old },
        }),
        Deed::Write => None,
        Deed::Join => join_of(keys.letters, tx, key, old),
        Deed::Undo => Some(Change {
            tx,
            key,
            new,
            how: How::Undo { undo_next: 0 },
        }),
    }
}

/// The right to the session agrees with the whole history then.
fn see_owner<N: Life, J: Entering<N>, R: Wait>(
    rt: &R,
    journal: &mut J,
    owner: &mut Option<SessionRight<N>>,
    pass: &mut Pass<Entry, N>,
)
    ensures begins { IsPrefix pass.old.log pass.new.log }
    ensures same { owner.new ≡ owner.old }
    ensures agrees { IfSome owner.new (SessionAgrees pass.new.log) }
{
    let mut rights = Rights::none();
    rights.s = owner.take();
    journal.see(rt, &mut rights, pass);
    *owner = rights.s.take();
}

/// The transaction of the session.
fn transaction_of<N: Life>(owner: &Option<SessionRight<N>>) -> Option<TxId>
    ensures some { IfSome result (λ t. IsSome owner.now) }
    ensures number { IfSome result (λ t. IfSome owner.now (λ s. (s.tx ≡ t) × IsTrue (is_number s.tx))) }
{
    match owner {
        Some(s) if 1 <= s.tx() && s.tx() <= HIGHEST => Some(s.tx()),
        _ => None,
    }
}

/// The leaf of a key, by the descent of a write, or by that of an undo, which changes no structure. A frame is reserved.
fn leaf_for<N: Life, J: Entering<N>, P: Pages<N, J>, R: Wait>(
    rt: &R,
    alloc: Global,
    pages: &mut P,
    journal: &mut J,
    deed: Deed,
    key: &[u8],
    pass: &mut Pass<Entry, N>,
) -> Result<Held<N>, Fault>
    requires untold { (opening : List Record) → N.opens opening → ⊥ }
    requires none { (P.desk pages.old).out ≡ 0 }
    ensures leaf { IfOk result (λ held. IsLeafOf key.now held.state) }
    ensures now { IfOk result (IsNow N.opens pass.new.log) }
    ensures taken { IfOk result (λ held. ((P.desk pages.new).out ≡ 1) × ((P.desk pages.new).reserves ≡ true)) }
    ensures none { IfErr result (λ fault. (P.desk pages.new).out ≡ 0) }
{
    match deed {
        Deed::Write | Deed::Join => find_leaf_for_write(rt, alloc, pages, journal, key, pass),
        Deed::Undo => {
            pages.reserve_new(rt, alloc, journal, pass)?;
            find_leaf(rt, alloc, pages, journal, key, pass)
        }
    }
}

/// Changes a key on its leaf.
#[tactic(auto, using(crate::proofs::MayOf::may_of))]
fn change<N: Life, J: Entering<N>, P: Pages<N, J>, R: Wait>(
    rt: &R,
    alloc: Global,
    pages: &mut P,
    journal: &mut J,
    owner: &mut Option<SessionRight<N>>,
    keys: &Keys,
    key: &Key,
    pass: &mut Pass<Entry, N>,
) -> Result<(), Fault>
    requires untold { (opening : List Record) → N.opens opening → ⊥ }
    requires none { (P.desk pages.old).out ≡ 0 }
    ensures none { (P.desk pages.new).out ≡ 0 }
{
    let mut leaf = leaf_for(rt, alloc, pages, journal, keys.deed, key.as_bytes(), pass)?;
    see_owner(rt, journal, owner, pass);
    let old = lookup(&leaf.state, key);
    let mut refused = None;
    if let Some(tx) = transaction_of(owner) {
        if let Some(change) = change_of(keys, tx, key, &old) {
            let answer = write_key(rt, alloc, pages, journal, &mut leaf, owner, &change, pass);
            refused = answer.err();
        }
    }
    pages.put_back(rt, &mut Some(leaf));
    pages.drop_new(rt);
    match refused {
        Some(fault) => Err(fault),
        None => Ok(()),
    }
}

/// Changes the keys, one after the other, until one is refused.
pub(crate) fn change_all<N: Life, J: Entering<N>, P: Pages<N, J>, R: Wait>(
    rt: &R,
    alloc: Global,
    pages: &mut P,
    journal: &mut J,
    owner: &mut Option<SessionRight<N>>,
    keys: &Keys,
    pass: &mut Pass<Entry, N>,
) -> Result<(), Fault>
    requires untold { (opening : List Record) → N.opens opening → ⊥ }
    requires none { (P.desk pages.old).out ≡ 0 }
    ensures none { (P.desk pages.new).out ≡ 0 }
{
    for number in keys.from..keys.behind {
        if let Some(key) = key_of(number, keys.length) {
            change(rt, alloc, pages, journal, owner, keys, &key, pass)?;
        }
    }
    Ok(())
}
