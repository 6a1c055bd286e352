//! The fields of a line: words `name=value`, in any order.
use store_model::{Bound, Key, KeyRange, Mode, OpValue, Value};

/// The word at this place.
pub fn word_at(line: &str, place: usize) -> &str {
    line.split(' ').nth(place).unwrap_or("")
}

/// What the line says of this name.
pub fn field<'a>(line: &'a str, name: &str) -> Option<&'a str> {
    for word in line.split(' ') {
        if let Some((found, value)) = word.split_once('=') {
            if found == name {
                return Some(value);
            }
        }
    }
    None
}

pub fn number(line: &str, name: &str) -> Option<u64> {
    field(line, name)?.parse::<u64>().ok()
}

pub fn small(line: &str, name: &str) -> Option<u32> {
    field(line, name)?.parse::<u32>().ok()
}

pub fn key(line: &str) -> Option<Key> {
    Key::new(field(line, "key")?.as_bytes())
}

/// None where the line says nothing of the name. V is the longest value.
pub fn value(line: &str, name: &str) -> Option<Value> {
    match field(line, name)? {
        "V" => Value::new(&[b'.'; 256]),
        text => Value::new(text.as_bytes()),
    }
}

/// The number of an operator.
pub fn operator(line: &str) -> Option<u8> {
    field(line, "operator")?.parse::<u8>().ok()
}

pub fn argument(line: &str) -> Option<OpValue> {
    OpValue::new(field(line, "argument")?.as_bytes())
}

/// That of a key, or from `low` on up to `high`, or to the end.
pub fn range(line: &str) -> Option<KeyRange> {
    if let Some(key) = key(line) {
        return Some(KeyRange::point(&key));
    }
    let low = Bound::at(field(line, "low")?.as_bytes())?;
    let high = match field(line, "high") {
        Some(text) => Bound::at(text.as_bytes())?,
        None => Bound::top(),
    };
    KeyRange::new(low, high)
}

pub fn mode(line: &str) -> Mode {
    match field(line, "mode") {
        Some("exclusive") => Mode::Exclusive,
        _ => Mode::Shared,
    }
}
