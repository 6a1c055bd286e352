//! A page in hand.
use crate::life::Life;
use books::PageRight;
use front::Pass;
use std::marker::Model;
use store_model::{Lsn, PageNo};
use wal_record::{Entry, PageState};

/// A page in somebody's hand: its state as the log makes it, after all that its own pass has seen, and the one right to
/// it. While it is held nobody else can enter a record of the page, so what the pass has seen of it stays true.
#[derive(Drop)]
pub struct Held<N: Life> {
    pub page: PageNo,
    /// The LSN of the page's last record.
    pub lsn: Lsn,
    pub state: PageState,
    /// Whether the data device lacks this state.
    pub dirty: bool,
    /// There wherever the page is handed on.
    pub right: Option<PageRight<N>>,
    pub pass: Pass<Entry, N>,
}

impl<N: Life> Model for Held<N> {
    ghost use Rattle.page_ops.specs.Hands.{Hand, IsInHand};

    ghost Value = { Hand };

    ghost view = { λ h. record { page = h.page; lsn = h.lsn; state = h.state; dirty = h.dirty; right = h.right; pass = h.pass } };

    ghost invariant = { λ h. IsInHand N.opens record { page = h.page; lsn = h.lsn; state = h.state; dirty = h.dirty; right = h.right; pass = h.pass } };
}
