//! A change of the row of a key.
ghost use Rattle.std.specs.Prelude.{◌≡◌, IsTrue};
ghost use Rattle.store_model.specs.declared.request.Request.TheVariants as requests;
ghost use Rattle.wal_record.specs.Rules.{is_maybe_value};
ghost use Rattle.leaf_writes.specs.Changes.{IsSpelledChange, is_told, record_by, request_of, said_by};

use books::SessionRight;
use page_ops::{Life, Said};
use store_model::{Key, Lsn, OpValue, PageNo, Reply, Request, TxId, Value};
use wal_record::{Apply, Record, Undo, Write};

/// What a transaction makes of the row of a key: it has then this value, or a tombstone where there is none.
#[derive(Drop)]
pub struct Change {
    pub tx: TxId,
    pub key: Key,
    pub new: Option<Value>,
    pub how: How,
}

/// By what it does so. `old` is the value that the key had.
#[derive(Drop)]
pub enum How {
    /// A put, or a del where there is no new value.
    Write {
        old: Option<Value>,
    },
    /// An operator, which makes the new value of the old one and the argument.
    Apply {
        old: Option<Value>,
        operator: u8,
        argument: OpValue,
    },
    /// The undo of the transaction's last open write, whose record's `prev` is `undo_next`.
    Undo {
        undo_next: Lsn,
    },
}

impl Change {
    /// Its record on this page, with what the journal fills in left open.
    pub(crate) fn on(&self, page: PageNo) -> Record
        ensures { result ≡ record_by self.now.how self.now.tx page self.now.key self.now.new }
    {
        let (tx, key) = (self.tx, self.key.copied());
        match &self.how {
            How::Write { old } => Record::Write(Write {
                tx,
                prev: 0,
                page,
                page_prev: 0,
                key,
                old: copy_of(old),
                new: copy_of(&self.new),
            }),
            How::Apply {
                old,
                operator,
                argument,
            } => Record::Apply(Apply {
                tx,
                prev: 0,
                page,
                page_prev: 0,
                key,
                operator: *operator,
                argument: operand_of(argument),
                old: copy_of(old),
            }),
            How::Undo { undo_next } => Record::Undo(Undo {
                tx,
                prev: 0,
                page,
                page_prev: 0,
                key,
                restores: copy_of(&self.new),
                undo_next: *undo_next,
            }),
        }
    }

    /// The answer of its request. An undo has none.
    pub(crate) fn said<N: Life>(&self, owner: &Option<SessionRight<N>>) -> Option<Said>
        ensures { result ≡ said_by self.now.how self.now.key self.now.new owner.now }
    {
        let (session, tx) = match owner {
            Some(owner) => (owner.session(), owner.tx()),
            None => return None,
        };
        let (old, request) = match &self.how {
            How::Write { old } => (old, request_of(&self.key, &self.new)),
            How::Apply {
                old,
                operator,
                argument,
            } => (old, applied(*operator, &self.key, argument)),
            How::Undo { undo_next: _ } => return None,
        };
        Some(Said {
            session,
            tx,
            request,
            reply: Reply::Was(copy_of(old)),
        })
    }

    /// Whether it is told as the answer of a request, and needs room for that.
    pub(crate) fn is_told(&self) -> bool
        ensures { result ≡ is_told self.now.how }
    {
        match &self.how {
            How::Undo { undo_next: _ } => false,
            _ => true,
        }
    }

    /// What it says has the lengths that are allowed. It only reads them.
    pub(crate) fn read(&self)
        ensures { IsSpelledChange self.now.how self.now.key self.now.new }
    {
        let _short = self.key.as_bytes();
        read_value(&self.new);
        match &self.how {
            How::Write { old } => read_value(old),
            How::Apply {
                old,
                operator,
                argument,
            } => {
                let _id = *operator;
                read_value(old);
                let _short = argument.as_bytes();
            }
            How::Undo { undo_next: _ } => {}
        }
    }
}

/// A put of the new value, or a del where there is none.
fn request_of(key: &Key, new: &Option<Value>) -> Request
    ensures { result ≡ request_of key.now new.now }
{
    match new {
        Some(value) => Request::Put(key.copied(), value.copied()),
        None => Request::Del(key.copied()),
    }
}

/// The operator on the key with this argument.
fn applied(operator: u8, key: &Key, argument: &OpValue) -> Request
    ensures { result ≡ requests.Apply operator key.now argument.now }
{
    Request::Apply {
        operator,
        key: key.copied(),
        argument: operand_of(argument),
    }
}

/// The same argument again. It takes no memory.
fn operand_of(argument: &OpValue) -> OpValue
    ensures { result ≡ argument.now }
{
    match OpValue::new(argument.as_bytes()) {
        Some(again) => again,
        None => unreachable!(),
    }
}

/// The same value again, if there is one. It takes no memory.
pub(crate) fn copy_of(value: &Option<Value>) -> Option<Value>
    ensures { result ≡ value.now }
{
    match value {
        Some(value) => Some(value.copied()),
        None => None,
    }
}

/// A value has no more bytes than it may. It only reads them.
fn read_value(value: &Option<Value>)
    ensures { IsTrue (is_maybe_value value.now) }
{
    if let Some(value) = value {
        let _few = value.as_bytes();
    }
}
