//! What the current contents say to a request.
ghost use Rattle.std.specs.Prelude.{◌≡◌, ◌↔◌, None, IsTrue, is_some};
ghost use Rattle.std.specs.FinMap as finite;
ghost use Rattle.std.specs.Option.{option_copied};
ghost use Rattle.store_model.specs.Contents.{Contents};
ghost use Rattle.store_model.specs.Operator.{meaning};
ghost use Rattle.wal_record.specs.Legal.{HasNoMeaning, Writes};
ghost use Rattle.reply_judge.specs.Contents.{IsContentsOf};
ghost use Rattle.reply_judge.specs.Answers.{IsAnswer};

use crate::contents::CurrentContents;
use operators::Operators;
use store_model::{Key, OpValue, Reply, Request, Value};

/// Whether this is the value that was found.
fn is_value(found: Option<&Value>, told: &Option<Value>) -> bool
    ensures { IsTrue result ↔ (told.now ≡ option_copied found.entry) }
{
    match (found, told) {
        (None, None) => true,
        (Some(found), Some(told)) => *found == *told,
        _ => false,
    }
}

/// Whether the reply is what these contents say, to a Get, a Scan, or a Del of a key without a value.
pub fn answers(contents: &CurrentContents, request: &Request, reply: &Reply) -> bool
    ensures { (m : Contents) → IsContentsOf m contents.now → IsTrue result ↔ IsAnswer m request.now reply.now }
{
    match (request, reply) {
        (Request::Get(key), Reply::Found(told)) => is_value(contents.get(key), told),
        (Request::Scan(range), Reply::Pairs(pairs)) => contents.are_pairs(range, pairs.as_slice()),
        (Request::Del(key), Reply::Was(told)) => told.is_none() && contents.get(key).is_none(),
        _ => false,
    }
}

/// Whether the operator gives a value there.
fn has_meaning(
    contents: &CurrentContents,
    operators: &Operators,
    operator: u8,
    key: &Key,
    argument: &OpValue,
) -> bool
    ensures { (m : Contents) → IsContentsOf m contents.now → result ≡ is_some (meaning operator (finite.get m key.now) argument.now) }
{
    operators
        .apply(operator, contents.get(key), argument)
        .is_some()
}

/// Whether the request would enter a write.
pub fn writes(contents: &CurrentContents, operators: &Operators, request: &Request) -> bool
    ensures { (m : Contents) → IsContentsOf m contents.now → IsTrue result ↔ Writes m request.now }
{
    match request {
        Request::Put(_, _) => true,
        Request::Del(key) => contents.get(key).is_some(),
        Request::Apply {
            operator,
            key,
            argument,
        } => has_meaning(contents, operators, *operator, key, argument),
        _ => false,
    }
}

/// Whether the request is an Apply of an operator that gives no value there.
pub fn has_no_meaning(contents: &CurrentContents, operators: &Operators, request: &Request) -> bool
    ensures { (m : Contents) → IsContentsOf m contents.now → IsTrue result ↔ HasNoMeaning m request.now }
{
    match request {
        Request::Apply {
            operator,
            key,
            argument,
        } => !has_meaning(contents, operators, *operator, key, argument),
        _ => false,
    }
}
