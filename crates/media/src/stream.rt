//! A stream of bytes in, and one out.
ghost use Rattle.std.specs.Prelude.{◌≡◌, ◌^◌, ◌-◌, ◌≤◌, ℕ, List, Option, min};
ghost use Rattle.std.specs.Io.{ReadsAtMost};
ghost use Rattle.std.specs.Io.KnownBytes.{ReadConsumes, WriteAppends};
ghost use Rattle.media.specs.Cause.{HasCause};
ghost use Rattle.media.specs.Stream.{WritesSome, WritesAll};

use crate::fault::Failed;

/// Bytes that come one after the other.
pub trait Source {
    /// The bytes that are left, where it tells.
    ghost left: { Self → Option (List ℕ) };

    /// How often it has failed.
    ghost faults: { Self → ℕ };

    /// Moves the first bytes of what is left into `buf`. With a `buf` that has room, none are moved only at the end.
    fn read(&mut self, buf: &mut [u8]) -> Result<usize, Failed>
        ensures bound { ReadsAtMost result buf.new }
        ensures bytes { ReadConsumes (left self.old) (left self.new) result buf.new }
        ensures cause { HasCause faults self.old self.new result };

    /// Its count of faults.
    fn faults(&self) -> u64
        ensures { result ≡ min (faults self.now) (2 ^ 64 - 1) };
}

/// Takes bytes one after the other.
pub trait Sink {
    /// The bytes that it has taken, where it tells.
    ghost told: { Self → Option (List ℕ) };

    /// How often it has failed.
    ghost faults: { Self → ℕ };

    /// Takes the first bytes of `piece`, at least one where there is one.
    fn write(&mut self, piece: &[u8]) -> Result<usize, Failed>
        ensures some { WritesSome result piece.now }
        ensures bytes { WriteAppends (told self.old) (told self.new) result piece.now }
        ensures cause { HasCause faults self.old self.new result };

    /// Its count of faults.
    fn faults(&self) -> u64
        ensures { result ≡ min (faults self.now) (2 ^ 64 - 1) };
}

/// Writes the whole piece. Before a fault the sink may have taken some of its first bytes.
pub fn write_all<K: Sink>(sink: &mut K, piece: &[u8]) -> Result<(), Failed>
    ensures bytes { WritesAll (K.told sink.old) (K.told sink.new) result piece.now }
    ensures cause { HasCause K.faults sink.old sink.new result }
{
    let mut rest = piece;
    while !rest.is_empty() {
        let count = sink.write(rest)?;
        let (_, after) = rest.split_at(count);
        rest = after;
    }
    Ok(())
}
