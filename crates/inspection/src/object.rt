//! The objects of a vault.
use crate::halt::Halt;
use crate::printing::write_line;
use field_line::Line;
use media::{Sink, Vault};
use std::alloc::{AllocError, Global};
use store_model::{ObjectKind, ObjectName};

/// Reads an object, and writes a line with its length.
pub fn inspect_object<V: Vault, K: Sink>(
    alloc: Global,
    vault: &mut V,
    object: ObjectName,
    sink: &mut K,
) -> Result<(), Halt> {
    let size = size_of(vault, object)?;
    write_line(sink, object_line(alloc, object, size)?)
}

/// How many bytes the object has.
fn size_of<V: Vault>(vault: &mut V, object: ObjectName) -> Result<u64, Halt> {
    let mut size = 0u64;
    for _ in 0..u64::MAX {
        let mut buf = [0u8; 4096];
        match vault.get(object, size, &mut buf) {
            Ok(0) => return Ok(size),
            Ok(count) => size = size.saturating_add(count as u64),
            Err(_) => return Err(Halt::Device),
        }
    }
    Ok(size)
}

fn object_line(alloc: Global, object: ObjectName, size: u64) -> Result<Line, AllocError> {
    let mut line = Line::new(alloc, "object")?;
    match object.kind {
        ObjectKind::Run => line.number("run", object.id)?,
        ObjectKind::Backup => {
            line.numbers(&[("backup", object.id), ("segment", u64::from(object.part))])?;
        }
    }
    line.number("bytes", size)?;
    Ok(line)
}
