//! Numbers as the decimal text that operators write.
ghost use Rattle.std.specs.Prelude.{◌≡◌, Some};
ghost use Rattle.std.specs.Fmt.{decimal};

use itoa::Buffer;
use store_model::OpValue;

/// The text of a number, which is always short enough.
pub fn written(number: u64) -> Option<OpValue>
    ensures { result ≡ Some (decimal number) }
{
    let mut buffer = Buffer::new();
    OpValue::new(buffer.format(number).as_bytes())
}
