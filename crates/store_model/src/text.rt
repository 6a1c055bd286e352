//! Texts that lie in a value itself, with room for a bounded number of bytes.
ghost use Rattle.std.specs.Prelude.{◌≡◌, ◌≤◌, length};

use arrayvec::ArrayVec;

/// The same bytes again, copied as one block. They fit.
pub(crate) fn copy_of<const N: usize>(bytes: &[u8]) -> ArrayVec<u8, N>
    requires { length bytes.now ≤ N }
    ensures { result.items ≡ bytes.now }
{
    let mut copy = ArrayVec::new();
    let _fits = copy.try_extend_from_slice(bytes);
    copy
}
