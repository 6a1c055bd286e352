//! What a disk has at hand, and what it kept at each time between two syncs.
ghost use Rattle.std.specs.Prelude.{◌≡◌, []};
ghost use base.Fml.{ftrue};
ghost use Rattle.media_mem.specs.Past.{PastSeen, past_code};

use std::marker::Model;

/// Bytes written at an offset.
#[derive(Drop)]
pub struct Write {
    pub at: u64,
    pub bytes: Vec<u8>,
}

impl Model for Write {
    ghost use Rattle.media_mem.specs.History.{Wrote};

    ghost Value = { Wrote };

    ghost view = { λ w. record { at = w.at; bytes = w.bytes.items } };
}

/// What a disk has at hand.
#[derive(Drop)]
pub struct Content {
    pub start: u64,
    /// What a read gives.
    pub bytes: Vec<u8>,
    /// The writes since the last sync.
    pub writes: Vec<Write>,
}

/// The times between two syncs, and what was synced last. Contracts alone speak of it, so it takes no memory.
#[derive(Drop)]
pub struct Past {
    pub ghost seen: { PastSeen } by { past_code },
}

impl Model for Past {
    ghost also_owns = { λ _. ftrue };
}

impl Past {
    ghost use Rattle.media_mem.specs.Ends.{after_time};

    /// Of a blank disk.
    pub fn new() -> Past
        ensures { result.seen ≡ record { spans = []; base = [] } }
    {
        Past {}
    }

    /// A time has ended, and these bytes are kept.
    pub fn then(&self, _content: &Content) -> Past
        ensures { result.seen ≡ after_time self.now.seen _content.now }
    {
        Past {}
    }
}
