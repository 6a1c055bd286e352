//! Numbers as decimal text.
ghost use Rattle.std.specs.Prelude.{◌≡◌};
ghost use Rattle.store_model.specs.Operator.{number_of};

use itoa::Buffer;
use std::str;

/// The number that a text writes in decimal without leading zeros, if it writes one below 2^64.
pub fn number_in(text: &[u8]) -> Option<u64>
    ensures { result ≡ number_of text.now }
{
    let Ok(digits) = str::from_utf8(text) else {
        return None;
    };
    let Ok(number) = digits.parse::<u64>() else {
        return None;
    };
    let mut buffer = Buffer::new();
    if buffer.format(number).as_bytes() == text {
        Some(number)
    } else {
        None
    }
}
