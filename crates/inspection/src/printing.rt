//! Lines written to a sink.
use crate::halt::Halt;
use field_line::Line;
use media::{Sink, write_all};

/// Writes the line and its end.
pub fn write_line<K: Sink>(sink: &mut K, line: Line) -> Result<(), Halt> {
    let bytes = line.ended()?;
    match write_all(sink, bytes.as_slice()) {
        Ok(()) => Ok(()),
        Err(_) => Err(Halt::Sink),
    }
}
