//! Bytes copied from one place to another.
ghost use Rattle.std.specs.Prelude.{◌≡◌, ◌+◌, ◌-◌, ◌≤◌, ◌++◌, length, take, drop, min, vec_capacity};

/// Copies the bytes from an offset on to the front of `buf`, as many as there are and fit.
pub fn copy_out(now: &[u8], off: usize, buf: &mut [u8]) -> usize
    ensures count { result ≡ min (length buf.old) (length now.now - off) }
    ensures bytes { buf.new ≡ take result (drop off now.now) ++ drop result buf.old }
{
    if off >= now.len() {
        return 0;
    }
    let rest = &now[off..];
    let n = if buf.len() < rest.len() {
        buf.len()
    } else {
        rest.len()
    };
    buf[..n].copy_from_slice(&rest[..n]);
    n
}

/// Puts bytes over those at a place.
fn put(bytes: &mut [u8], at: usize, with: &[u8])
    requires { at + length with.now ≤ length bytes.old }
    ensures { bytes.new ≡ take at bytes.old ++ with.now ++ drop (at + length with.now) bytes.old }
{
    let end = at + with.len();
    bytes[at..end].copy_from_slice(with);
}

/// Puts bytes over those at a place and past the end, without memory.
pub fn put_over(bytes: &mut Vec<u8>, at: usize, with: &[u8])
    requires within { at ≤ length bytes.old.items }
    requires room { at + length with.now ≤ vec_capacity bytes.old }
    ensures bytes { bytes.new.items ≡ take at bytes.old.items ++ with.now ++ drop (at + length with.now) bytes.old.items }
    ensures capacity { vec_capacity bytes.old ≤ vec_capacity bytes.new }
{
    let left = bytes.len() - at;
    let inside = if left < with.len() { left } else { with.len() };
    let (over, past) = with.split_at(inside);
    put(bytes.as_mut_slice(), at, over);
    match bytes.extend_from_slice(past) {
        Ok(()) => {}
        Err(_) => unreachable!(),
    }
}
