//! Groups of records as bytes.
ghost use Rattle.std.specs.Prelude.{◌≡◌, ◌+◌, ◌<◌, ◌^◌, length, IfOk};
ghost use Rattle.std.specs.List.{All};
ghost use Rattle.wal_record.specs.Rules.{HasSpelling};
ghost use Rattle.log_manager.specs.Payload.{bytes_of};
ghost use Rattle.wal_record.specs.Checkpoints.{checkpoint_after};

use record_codec::encode;
use std::alloc::Global;
use store_model::{Lsn, Memory};
use wal_record::Record;

/// The spellings of the records, one behind the other.
pub fn spelled(alloc: Global, recs: &[Record]) -> Result<Vec<u8>, Memory>
    requires { All HasSpelling recs.now }
    ensures { IfOk result (λ bytes. bytes.items ≡ bytes_of recs.now) }
{
    let mut bytes = Vec::new(alloc);
    for rec in recs {
        encode(alloc, rec, &mut bytes)?;
    }
    Ok(bytes)
}

/// The LSN of the last Checkpoint of these records, the first of which has this LSN; `before` where there is none.
pub fn last_checkpoint(before: Lsn, first: Lsn, recs: &[Record]) -> Lsn
    requires { first + length recs.now < 2 ^ 64 }
    ensures { result ≡ checkpoint_after before first recs.now }
{
    let mut found = before;
    let mut lsn = first;
    for rec in recs {
        if let Record::Checkpoint(_) = rec {
            found = lsn;
        }
        lsn += 1;
    }
    found
}
