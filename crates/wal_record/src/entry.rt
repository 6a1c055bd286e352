//! The entries of a life's history.

use crate::record::Record;
use store_model::{KeyRange, Lsn, Mode, Outcome, PageNo, Reply, Request, TxId};

/// One entry. A life is what happens from an opening to the next stop or close, and its history is
/// the list of its entries.
#[derive(Drop)]
pub enum Entry {
    /// A record was added to the log, at this LSN.
    Rec {
        lsn: Lsn,
        rec: Record,
    },
    /// The transaction locked a range.
    Lock {
        tx: TxId,
        range: KeyRange,
        mode: Mode,
    },
    /// The transaction was refused a range, since `holder` has a lock that conflicts with it.
    Refused {
        tx: TxId,
        range: KeyRange,
        mode: Mode,
        holder: TxId,
    },
    /// A request of the transaction was answered.
    Said {
        session: u32,
        tx: TxId,
        request: Request,
        reply: Reply,
    },
    /// A request of the transaction was declined, for want of room or of a meaning.
    Declined {
        session: u32,
        tx: TxId,
        request: Request,
        why: Outcome,
    },
    /// The transaction's commit was acknowledged.
    Acked {
        session: u32,
        tx: TxId,
    },
    /// A page was rebuilt from its backup, the archive and the log.
    Repaired {
        page: PageNo,
    },
    /// A session began a transaction.
    Began {
        session: u32,
        tx: TxId,
    },
}
