//! The rights that go with a group of records.
use crate::life::Life;
use books::{MaintRight, PageRight, SessionRight};
use std::marker::Model;

/// The rights that a call is handed, and hands back with their new numbers: to the pages that its records name, to the
/// page that they make, to the session, and to maintenance. Contracts see what they claim. The numbers of pages and LSNs
/// are in their ranges, also where the log isn't told.
#[derive(Drop)]
pub struct Rights<N: Life> {
    /// To a page that a record names.
    pub a: Option<PageRight<N>>,
    /// To a second page that a record names.
    pub b: Option<PageRight<N>>,
    /// To the page that a record makes, which the call puts here.
    pub c: Option<PageRight<N>>,
    /// To the session of the group.
    pub s: Option<SessionRight<N>>,
    /// To maintenance, for a backup or a run that is done.
    pub m: Option<MaintRight<N>>,
}

impl<N: Life> Model for Rights<N> {
    ghost use Rattle.page_ops.specs.Claims.{AreInRange, Claims};

    ghost Value = { Claims };

    ghost view = { λ r. record { a = r.a; b = r.b; c = r.c; s = r.s; m = r.m } };

    ghost invariant = { λ r. AreInRange (record { a = r.a; b = r.b; c = r.c; s = r.s; m = r.m }) };
}

impl<N: Life> Rights<N> {
    ghost use Rattle.std.specs.Prelude.{◌≡◌};
    ghost use Rattle.page_ops.specs.Claims.{no_claims};

    /// No rights.
    pub fn none() -> Rights<N>
        ensures { result ≡ no_claims }
    {
        Rights {
            a: None,
            b: None,
            c: None,
            s: None,
            m: None,
        }
    }
}
