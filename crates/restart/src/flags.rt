//! Truth values in words, 64 in each.
ghost use Rattle.std.specs.Prelude.{◌≡◌, ◌≢◌, ◌*◌, ◌^◌, ◌<◌, ◌≤◌, ℕ, true, false, length, IfOk};
ghost use Rattle.restart.specs.Plans.{IsNextFlag, flag_at};

use std::alloc::{AllocError, Global};

/// Words for so many truth values, all of them false.
pub(crate) fn no_flags(alloc: Global, count: usize) -> Result<Vec<u64>, AllocError>
    ensures room { IfOk result (λ words. count ≤ 64 * length words.items) }
    ensures none { IfOk result (λ words. (n : ℕ) → flag_at words.items n ≡ false) }
{
    let mut words = Vec::new(alloc);
    for _ in 0..count / 64 + 1 {
        words.push(0)?;
    }
    Ok(words)
}

pub(crate) fn flag(words: &[u64], n: usize) -> bool
    requires { n < 64 * length words.now }
    ensures { result ≡ flag_at words.now n }
{
    (words[n / 64] >> (n % 64)) & 1 == 1
}

pub(crate) fn set_flag(words: &mut [u64], n: usize)
    requires { n < 64 * length words.old }
    ensures set { flag_at words.new n ≡ true }
    ensures others { (m : ℕ) → m ≢ n → flag_at words.new m ≡ flag_at words.old m }
{
    words[n / 64] |= 1 << (n % 64);
}

pub(crate) fn clear_flag(words: &mut [u64], n: usize)
    requires { n < 64 * length words.old }
    ensures clear { flag_at words.new n ≡ false }
    ensures others { (m : ℕ) → m ≢ n → flag_at words.new m ≡ flag_at words.old m }
{
    words[n / 64] &= !(1 << (n % 64));
}

/// The least true value from this place on, among the first so many. Words that have none are passed over.
pub(crate) fn next_flag(words: &[u64], from: usize, count: usize) -> Option<usize>
    requires within { count ≤ 64 * length words.now }
    requires few { count < 2 ^ 32 }
    ensures { IsNextFlag words.now from count result }
{
    let mut place = from;
    while place < count {
        let rest = words[place / 64] >> (place % 64);
        if rest != 0 {
            let found = place + rest.trailing_zeros() as usize;
            return if found < count { Some(found) } else { None };
        }
        place += 64 - place % 64;
    }
    None
}
