//! Fields against their rules.
ghost use Rattle.std.specs.Prelude.{◌≡◌, IsTrue};
ghost use Rattle.wal_record.specs.Rules as rules;
ghost use Rattle.wal_record.specs.State as states;

use store_model::{
    HIGHEST, KEY_BYTES, Key, LEAST_LIMIT, Lsn, MOST_PAGES, OpValue, PageNo, VALUE_BYTES, Value,
};

/// Whether it is the number of a transaction, a backup or a run, or the LSN of a record.
pub(crate) fn is_number(number: u64) -> bool
    ensures { result ≡ rules.is_number number }
{
    1 <= number && number <= HIGHEST
}

/// Whether it is the LSN of a record, or 0.
pub(crate) fn is_lsn_or_none(lsn: Lsn) -> bool
    ensures { result ≡ rules.is_lsn_or_none lsn }
{
    lsn <= HIGHEST
}

pub(crate) fn is_page(page: PageNo) -> bool
    ensures { result ≡ rules.is_page page }
{
    1 <= page && page <= MOST_PAGES
}

/// Whether a pointer may lead to the page.
pub(crate) fn is_child(page: PageNo) -> bool
    ensures { result ≡ states.is_child page }
{
    2 <= page && page <= MOST_PAGES
}

pub(crate) fn is_limit(limit: u32) -> bool
    ensures { result ≡ rules.is_limit limit }
{
    LEAST_LIMIT <= limit && limit <= MOST_PAGES
}

pub(crate) fn is_key(key: &Key) -> bool
    ensures { result ≡ states.is_key key.now }
{
    let bytes = key.as_bytes().len();
    1 <= bytes && bytes <= KEY_BYTES
}

fn is_value(value: &Value) -> bool
    ensures { result ≡ states.is_value value.now }
{
    value.as_bytes().len() <= VALUE_BYTES
}

pub(crate) fn is_maybe_value(value: &Option<Value>) -> bool
    ensures { result ≡ rules.is_maybe_value value.now }
{
    match value {
        Some(value) => is_value(value),
        None => true,
    }
}

/// Whether there is a value before or after.
pub(crate) fn is_change(old: &Option<Value>, new: &Option<Value>) -> bool
    ensures { result ≡ rules.is_change old.now new.now }
{
    old.is_some() || new.is_some()
}

pub(crate) fn is_argument(argument: &OpValue) -> bool
    ensures { result ≡ states.is_text argument.now }
{
    argument.as_bytes().len() <= KEY_BYTES
}

/// A byte is one.
pub(crate) fn is_u8(number: u8) -> bool
    ensures { result ≡ rules.is_u8 number }
{
    u32::from(number) <= 255
}

/// A number of four bytes is one.
pub(crate) fn is_u32(number: u32) -> bool
    ensures { result ≡ rules.is_u32 number }
{
    u64::from(number) <= 0xffff_ffff
}
