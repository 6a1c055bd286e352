//! What a store answers.
use crate::list::List;
use crate::numbers::TxId;
use crate::pair::Pair;
use crate::range::KeyRange;
use crate::value::Value;

/// The reply to a request that was carried out.
#[derive(Clone, Debug, PartialEq, Eq, Drop)]
pub enum Reply {
    /// To Put, Del and Apply: the value that the key had.
    Was(Option<Value>),
    /// To Get: the key's value.
    Found(Option<Value>),
    /// To Scan: the pairs of the range, in rising key order.
    Pairs(List<Pair>),
}

/// What became of a request.
#[derive(Debug, Drop)]
pub enum Outcome {
    Replied(Reply),
    /// Another transaction holds a conflicting lock: the least such transaction, and the first of its conflicting ranges.
    Conflict { holder: TxId, range: KeyRange },
    /// No room: the pages there are, and the writes not yet undone.
    Full { pages: u32, pending: u32 },
    /// The operator gives no value here.
    OpRefused,
}
