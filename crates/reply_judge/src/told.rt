//! Writes, and what their transactions are told.
ghost use Rattle.std.specs.Prelude.{◌≡◌, ◌↔◌, ℕ, Some, IsTrue};
ghost use Rattle.wal_record.specs.declared.entry.Entry.TheVariants.{Rec};
ghost use Rattle.store_model.specs.declared.reply.Reply.TheVariants.{Was};
ghost use Rattle.wal_record.specs.declared.record.Record.TheVariants as kinds;
ghost use Rattle.wal_record.specs.Legal.{IsToldAs, untold_step};

use store_model::{OpValue, Reply, Request, Value};
use wal_record::{Apply, Record, Write};

fn copied_value(value: &Option<Value>) -> Option<Value>
    ensures { result ≡ value.now }
{
    match value {
        Some(value) => Some(value.copied()),
        None => None,
    }
}

fn copied_argument(argument: &OpValue) -> OpValue
    ensures { result ≡ argument.now }
{
    match OpValue::new(argument.as_bytes()) {
        Some(copy) => copy,
        None => unreachable!(),
    }
}

fn copied_write(write: &Write) -> Write
    ensures { result ≡ write.now }
{
    Write {
        tx: write.tx,
        prev: write.prev,
        page: write.page,
        page_prev: write.page_prev,
        key: write.key.copied(),
        old: copied_value(&write.old),
        new: copied_value(&write.new),
    }
}

fn copied_apply(apply: &Apply) -> Apply
    ensures { result ≡ apply.now }
{
    Apply {
        tx: apply.tx,
        prev: apply.prev,
        page: apply.page,
        page_prev: apply.page_prev,
        key: apply.key.copied(),
        operator: apply.operator,
        argument: copied_argument(&apply.argument),
        old: copied_value(&apply.old),
    }
}

/// The record, where it is a write, of which its transaction isn't told yet. It takes no memory.
pub fn untold_record(entered: &Record) -> Option<Record>
    ensures { (lsn : ℕ) → result ≡ untold_step (Rec lsn entered.now) }
{
    match entered {
        Record::Write(write) => Some(Record::Write(copied_write(write))),
        Record::Apply(apply) => Some(Record::Apply(copied_apply(apply))),
        _ => None,
    }
}

/// Whether the reply tells the value from before.
fn tells(reply: &Reply, old: &Option<Value>) -> bool
    ensures { IsTrue result ↔ (reply.now ≡ Was old.now) }
{
    match reply {
        Reply::Was(was) => *was == *old,
        _ => false,
    }
}

fn is_written_as(write: &Write, request: &Request, reply: &Reply) -> bool
    ensures { IsTrue result ↔ IsToldAs (kinds.Write write.now) request.now reply.now }
{
    match request {
        Request::Put(key, value) => {
            write.key == *key && is_some_value(&write.new, value) && tells(reply, &write.old)
        }
        Request::Del(key) => write.key == *key && write.new.is_none() && tells(reply, &write.old),
        _ => false,
    }
}

fn is_some_value(new: &Option<Value>, value: &Value) -> bool
    ensures { IsTrue result ↔ (new.now ≡ Some value.now) }
{
    match new {
        Some(new) => *new == *value,
        None => false,
    }
}

fn is_applied_as(apply: &Apply, request: &Request, reply: &Reply) -> bool
    ensures { IsTrue result ↔ IsToldAs (kinds.Apply apply.now) request.now reply.now }
{
    match request {
        Request::Apply {
            operator,
            key,
            argument,
        } => {
            apply.operator == *operator
                && apply.key == *key
                && apply.argument == *argument
                && tells(reply, &apply.old)
        }
        _ => false,
    }
}

/// Whether the write is told as this request with this reply.
pub fn is_told_as(told: &Record, request: &Request, reply: &Reply) -> bool
    ensures { IsTrue result ↔ IsToldAs told.now request.now reply.now }
{
    match told {
        Record::Write(write) => is_written_as(write, request, reply),
        Record::Apply(apply) => is_applied_as(apply, request, reply),
        _ => false,
    }
}
