//! Groups as tests ask for them, with what the journal fills in left open.
ghost use Rattle.std.specs.Prelude.{◌≡◌, ◌∷◌, [], None, Some, false, IfOk, IfSome, IsTrue};
ghost use Rattle.store_model.specs.declared.reply.Reply.TheVariants as replies;
ghost use Rattle.wal_record.specs.Rules.{HasSpelling, KeepsApply, KeepsUndo, KeepsWrite, is_change, is_number, is_page};
ghost use Rattle.journal_steps.specs.Asked.{apply_group, apply_of, request_of, undo_of, write_group, write_of};

use page_ops::{Group, Said};
use std::alloc::Global;
use store_model::{Key, List, Memory, OpValue, PageNo, Reply, Request, TxId, Value};
use wal_record::{Apply, Record, Undo, Write};

/// A record alone, without an answer.
pub(crate) fn alone(alloc: Global, rec: Record) -> Result<Group, Memory>
    ensures { IfOk result (λ group. group ≡ record { recs = rec ∷ []; said = None; room = false; lsn = 0 }) }
{
    let mut recs = List::new(alloc);
    recs.push(rec)?;
    Ok(Group {
        recs,
        said: None,
        room: false,
        lsn: 0,
    })
}

fn copy_of(value: &Option<Value>) -> Option<Value>
    ensures { result ≡ value.now }
{
    match value {
        Some(value) => Some(value.copied()),
        None => None,
    }
}

/// A put of the value, or a del where there is none.
fn request(key: &Key, new: &Option<Value>) -> Request
    ensures { result ≡ request_of key.now new.now }
{
    match new {
        Some(value) => Request::Put(key.copied(), value.copied()),
        None => Request::Del(key.copied()),
    }
}

/// A del of what isn't there: an answer alone.
pub(crate) fn absent(alloc: Global, session: u32, tx: TxId, key: &Key) -> Group
    ensures { result ≡ record { recs = []; said = Some (record { session = session; tx = tx; request = request_of key.now None; reply = replies.Was None }); room = false; lsn = 0 } }
{
    Group {
        recs: List::new(alloc),
        said: Some(Said {
            session,
            tx,
            request: request(key, &None),
            reply: Reply::Was(None),
        }),
        room: false,
        lsn: 0,
    }
}

/// A write of a key that has this value, with its answer.
pub(crate) fn written(
    alloc: Global,
    session: u32,
    tx: TxId,
    page: PageNo,
    key: &Key,
    old: &Option<Value>,
    new: &Option<Value>,
) -> Result<Group, Memory>
    requires tx { IsTrue (is_number tx) }
    requires page { IsTrue (is_page page) }
    requires change { IsTrue (is_change old.now new.now) }
    ensures is { IfOk result (λ group. group ≡ write_group session tx page key.now old.now new.now) }
    ensures spelled { KeepsWrite (write_of tx page key.now old.now new.now) }
{
    let mut recs = List::new(alloc);
    recs.push(Record::Write(Write {
        tx,
        prev: 0,
        page,
        page_prev: 0,
        key: key.copied(),
        old: copy_of(old),
        new: copy_of(new),
    }))?;
    Ok(Group {
        recs,
        said: Some(Said {
            session,
            tx,
            request: request(key, new),
            reply: Reply::Was(copy_of(old)),
        }),
        room: true,
        lsn: 0,
    })
}

/// The same argument again. It takes no memory.
fn operand_of(argument: &OpValue) -> OpValue
    ensures { result ≡ argument.now }
{
    match OpValue::new(argument.as_bytes()) {
        Some(again) => again,
        None => unreachable!(),
    }
}

/// An operator on a key that has this value, with its answer.
pub(crate) fn applied(
    alloc: Global,
    session: u32,
    tx: TxId,
    page: PageNo,
    key: &Key,
    old: &Option<Value>,
    operator: u8,
    argument: &OpValue,
) -> Result<Group, Memory>
    requires tx { IsTrue (is_number tx) }
    requires page { IsTrue (is_page page) }
    ensures is { IfOk result (λ group. group ≡ apply_group session tx page key.now old.now operator argument.now) }
    ensures spelled { KeepsApply (apply_of tx page key.now old.now operator argument.now) }
{
    let mut recs = List::new(alloc);
    recs.push(Record::Apply(Apply {
        tx,
        prev: 0,
        page,
        page_prev: 0,
        key: key.copied(),
        operator,
        argument: operand_of(argument),
        old: copy_of(old),
    }))?;
    Ok(Group {
        recs,
        said: Some(Said {
            session,
            tx,
            request: Request::Apply {
                operator,
                key: key.copied(),
                argument: operand_of(argument),
            },
            reply: Reply::Was(copy_of(old)),
        }),
        room: true,
        lsn: 0,
    })
}

/// The undo of a write, or of an operator's. None of any other record.
pub(crate) fn taken_back(rec: &Record) -> Option<Undo>
    requires spelled { HasSpelling rec.now }
    ensures is { result ≡ undo_of rec.now }
    ensures spelled { IfSome result KeepsUndo }
{
    let (tx, page, key, old, undo_next) = match rec {
        Record::Write(write) => (write.tx, write.page, &write.key, &write.old, write.prev),
        Record::Apply(apply) => (apply.tx, apply.page, &apply.key, &apply.old, apply.prev),
        _ => return None,
    };
    Some(Undo {
        tx,
        prev: 0,
        page,
        page_prev: 0,
        key: key.copied(),
        restores: copy_of(old),
        undo_next,
    })
}
