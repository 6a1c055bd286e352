//! A log on which a life may begin.
ghost use Rattle.std.specs.Prelude.{◌≡◌, None};

use listed_log::ListedLog;
use media::Disk;
use std::marker::Model;

/// A log that was read, and goes on. Contracts see it with its listing.
#[derive(Drop)]
pub struct Opened<L: Disk> {
    log: ListedLog<L>,
}

impl<L: Disk> Model for Opened<L> {
    ghost use Rattle.std.specs.Coded.{codes};
    ghost use Rattle.std.specs.Prelude.{◌≡◌, None};
    ghost use Rattle.log_index.specs.contracts.listing.Listing as listings;
    ghost use Rattle.store_log.specs.Beginnings.{Beginning};

    ghost Value = { Beginning L };

    ghost coded = { Prim.hlevel (codes, listings.the_row.coded) };

    ghost view = { λ o. record { log = o.log.log; listing = o.log.listing } };

    ghost invariant = { λ o. o.log.log.log.ended ≡ None };
}

impl<L: Disk> Opened<L> {
    pub fn new(log: ListedLog<L>) -> Opened<L>
        requires goes { log.log.log.ended ≡ None }
        ensures { result ≡ record { log = log.log; listing = log.listing } }
    {
        Opened { log }
    }

    /// The log with its listing.
    pub fn into_log(self) -> ListedLog<L>
        ensures is { (result.log ≡ self.log) × (result.listing ≡ self.listing) }
        ensures goes { result.log.log.ended ≡ None }
    {
        let Opened { log } = self;
        log
    }

    /// The log disk.
    pub fn into_device(self) -> L
        ensures { result ≡ self.log.log.device }
    {
        let Opened { log } = self;
        log.into_device()
    }
}
