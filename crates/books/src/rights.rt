//! The rights of the three books of a life, by what their number and values stand for.
ghost use Rattle.std.specs.Prelude.{◌≡◌};
ghost use Rattle.books.specs.Rights.{page_claim, page_entry, session_claim, session_entry, maint_claim, maint_entry};

use crate::entry::BookEntry;
use crate::right::Right;
use crate::shelf::{BookNames, MaintBook, PageBook, SessionBook};
use crate::steps::Place;
use std::marker::{Model, PhantomData};
use store_model::{Lsn, PageNo, TxId};

/// The one right to a page. Contracts see it as the page's number and the LSN of its last record. The second value of
/// its entry is 0, and takes no memory here.
#[derive(Drop)]
pub struct PageRight<N: BookNames> {
    page: PageNo,
    lsn: Lsn,
    seat: Place,
    names: PhantomData<N>,
}

impl<N: BookNames> Model for PageRight<N> {
    ghost use Rattle.std.specs.Prelude.{◌≡◌, [], Some};
    ghost use Rattle.books.specs.Booking.{claimant, entry};
    ghost use Rattle.books.specs.Rights.{PageClaim};

    ghost Value = { PageClaim };

    ghost view = { λ r. record { page = r.page; lsn = r.lsn } };

    ghost invariant = { λ r. (r.seat.table_id ≡ N.pages) × (r.seat.me ≡ (claimant (Some (entry r.page r.lsn 0)), [])) };
}

impl<N: BookNames> PageRight<N> {
    /// The right to an entry of the book of pages, as that of a page.
    pub fn of(right: Right<PageBook<N>>) -> PageRight<N>
        requires second { right.second ≡ 0 }
        ensures { result ≡ page_claim right }
    {
        let Right {
            entry,
            seat,
            name: _,
        } = right;
        PageRight {
            page: entry.number,
            lsn: entry.first,
            seat,
            names: PhantomData,
        }
    }

    /// The right to the entry of the book of pages.
    pub fn into_right(self) -> Right<PageBook<N>>
        ensures { result ≡ page_entry self }
    {
        let PageRight {
            page,
            lsn,
            seat,
            names: _,
        } = self;
        let entry = BookEntry {
            number: page,
            first: lsn,
            second: 0,
        };
        Right {
            entry,
            seat,
            name: PhantomData,
        }
    }

    /// The page.
    pub fn page(&self) -> PageNo
        ensures { result ≡ self.now.page }
    {
        self.page
    }

    /// The LSN of the page's last record, 0 for none.
    pub fn lsn(&self) -> Lsn
        ensures { result ≡ self.now.lsn }
    {
        self.lsn
    }
}

/// The one right to a session. Contracts see it as the session's number, the number of the history's entries that
/// belong to it, and its transaction, 0 for none.
#[derive(Drop)]
pub struct SessionRight<N: BookNames> {
    right: Right<SessionBook<N>>,
}

impl<N: BookNames> Model for SessionRight<N> {
    ghost use Rattle.books.specs.Rights.{SessionClaim, session_claim};

    ghost Value = { SessionClaim };

    ghost view = { λ r. session_claim r.right };
}

impl<N: BookNames> SessionRight<N> {
    /// The right to an entry of the book of sessions, as that of a session.
    pub fn of(right: Right<SessionBook<N>>) -> SessionRight<N>
        ensures { result ≡ session_claim right }
    {
        SessionRight { right }
    }

    /// The right to the entry of the book of sessions.
    pub fn into_right(self) -> Right<SessionBook<N>>
        ensures { result ≡ session_entry self }
    {
        self.right
    }

    /// The session.
    pub fn session(&self) -> u32
        ensures { result ≡ self.now.session }
    {
        self.right.entry().number
    }

    /// How many entries of the history belong to the session.
    pub fn entries(&self) -> u64
        ensures { result ≡ self.now.entries }
    {
        self.right.entry().first
    }

    /// The session's transaction, 0 for none.
    pub fn tx(&self) -> TxId
        ensures { result ≡ self.now.tx }
    {
        self.right.entry().second
    }
}

/// The one right to an entry of the book of maintenance. Contracts see it as its number and the LSN of the last record
/// that says that a backup or a run is done, 0 for none. The second value of its entry is 0.
#[derive(Drop)]
pub struct MaintRight<N: BookNames> {
    right: Right<MaintBook<N>>,
}

impl<N: BookNames> Model for MaintRight<N> {
    ghost use Rattle.std.specs.Prelude.{◌≡◌};
    ghost use Rattle.books.specs.Rights.{MaintClaim, maint_claim};

    ghost Value = { MaintClaim };

    ghost view = { λ r. maint_claim r.right };

    ghost invariant = { λ r. r.right.second ≡ 0 };
}

impl<N: BookNames> MaintRight<N> {
    /// The right to an entry of the book of maintenance, as that of the maintenance.
    pub fn of(right: Right<MaintBook<N>>) -> MaintRight<N>
        requires second { right.second ≡ 0 }
        ensures { result ≡ maint_claim right }
    {
        MaintRight { right }
    }

    /// The right to the entry of the book of maintenance.
    pub fn into_right(self) -> Right<MaintBook<N>>
        ensures { result ≡ maint_entry self }
    {
        self.right
    }

    /// The number.
    pub fn number(&self) -> u32
        ensures { result ≡ self.now.number }
    {
        self.right.entry().number
    }

    /// The LSN of the last record that says that a backup or a run is done, 0 for none.
    pub fn lsn(&self) -> Lsn
        ensures { result ≡ self.now.lsn }
    {
        self.right.entry().first
    }
}
