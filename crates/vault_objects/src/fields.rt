//! Fields of objects that have one right number.
ghost use Rattle.std.specs.Prelude.{◌≡◌};
ghost use Rattle.std.specs.Int.{w32, w64};
ghost use Rattle.wal_record.specs.Reading.{number_at};
ghost use Rattle.state_codec.specs.Gives.{Gives};
ghost use Rattle.vault_objects.specs.Fields.{is_this};

use state_codec::{FieldFault, u32_in_front, u64_in_front};

/// A number of four bytes that has to be this one.
#[tactic(auto, unfolding(wal_record::specs::Reading::number_at))]
pub fn this_u32_at(number: u32, bytes: &[u8]) -> Result<(u32, &[u8]), FieldFault>
    ensures { Gives (λ x. (x.0, x.1.now)) result (number_at w32 (is_this number) bytes.now) }
{
    match u32_in_front(bytes) {
        Some((found, rest)) if found == number => Ok((found, rest)),
        _ => Err(FieldFault::Bad { left: bytes.len() }),
    }
}

/// A number of eight bytes that has to be this one.
#[tactic(auto, unfolding(wal_record::specs::Reading::number_at))]
pub fn this_u64_at(number: u64, bytes: &[u8]) -> Result<(u64, &[u8]), FieldFault>
    ensures { Gives (λ x. (x.0, x.1.now)) result (number_at w64 (is_this number) bytes.now) }
{
    match u64_in_front(bytes) {
        Some((found, rest)) if found == number => Ok((found, rest)),
        _ => Err(FieldFault::Bad { left: bytes.len() }),
    }
}
