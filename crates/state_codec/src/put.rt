//! Fields at the end of bytes. Where memory runs out, part of a field may have been appended.
ghost use Rattle.std.specs.Prelude.{◌≡◌, ◌++◌, OnOk};
ghost use Rattle.std.specs.Int.{w8, w16, w32, w64};
ghost use Rattle.wal_record.specs.Spelling.{number_bytes, text_bytes, value_bytes, maybe_bytes};

use std::alloc::AllocError;
use store_model::{Key, OpValue, Value};

/// Appends a byte.
#[tactic(auto, unfolding(wal_record::specs::Spelling::number_bytes))]
pub fn put_u8(out: &mut Vec<u8>, n: u8) -> Result<(), AllocError>
    ensures { OnOk result (out.new.items ≡ out.old.items ++ number_bytes w8 n) }
{
    out.extend_from_slice(&n.to_be_bytes())
}

/// Appends a number in two bytes.
#[tactic(auto, unfolding(wal_record::specs::Spelling::number_bytes))]
pub fn put_u16(out: &mut Vec<u8>, n: u16) -> Result<(), AllocError>
    ensures { OnOk result (out.new.items ≡ out.old.items ++ number_bytes w16 n) }
{
    out.extend_from_slice(&n.to_be_bytes())
}

/// Appends a number in four bytes.
#[tactic(auto, unfolding(wal_record::specs::Spelling::number_bytes))]
pub fn put_u32(out: &mut Vec<u8>, n: u32) -> Result<(), AllocError>
    ensures { OnOk result (out.new.items ≡ out.old.items ++ number_bytes w32 n) }
{
    out.extend_from_slice(&n.to_be_bytes())
}

/// Appends a number in eight bytes.
#[tactic(auto, unfolding(wal_record::specs::Spelling::number_bytes))]
pub fn put_u64(out: &mut Vec<u8>, n: u64) -> Result<(), AllocError>
    ensures { OnOk result (out.new.items ≡ out.old.items ++ number_bytes w64 n) }
{
    out.extend_from_slice(&n.to_be_bytes())
}

/// Appends a key.
#[tactic(auto, unfolding(wal_record::specs::Spelling::text_bytes))]
pub fn put_key(out: &mut Vec<u8>, key: &Key) -> Result<(), AllocError>
    ensures { OnOk result (out.new.items ≡ out.old.items ++ text_bytes key.now) }
{
    let bytes = key.as_bytes();
    out.push(bytes.len() as u8)?;
    out.extend_from_slice(bytes)
}

/// Appends the argument of an operator.
#[tactic(auto, unfolding(wal_record::specs::Spelling::text_bytes))]
pub fn put_argument(out: &mut Vec<u8>, argument: &OpValue) -> Result<(), AllocError>
    ensures { OnOk result (out.new.items ≡ out.old.items ++ text_bytes argument.now) }
{
    let bytes = argument.as_bytes();
    out.push(bytes.len() as u8)?;
    out.extend_from_slice(bytes)
}

/// Appends a value.
#[tactic(auto, unfolding(wal_record::specs::Spelling::value_bytes))]
pub fn put_value(out: &mut Vec<u8>, value: &Value) -> Result<(), AllocError>
    ensures { OnOk result (out.new.items ≡ out.old.items ++ value_bytes value.now) }
{
    let bytes = value.as_bytes();
    out.extend_from_slice(&(bytes.len() as u16).to_be_bytes())?;
    out.extend_from_slice(bytes)
}

/// Appends a value that may be absent.
#[tactic(auto, unfolding(wal_record::specs::Spelling::maybe_bytes))]
pub fn put_maybe_value(out: &mut Vec<u8>, value: &Option<Value>) -> Result<(), AllocError>
    ensures { OnOk result (out.new.items ≡ out.old.items ++ maybe_bytes value_bytes value.now) }
{
    match value {
        None => Ok(out.push(0)?),
        Some(value) => {
            out.push(1)?;
            put_value(out, value)
        }
    }
}
