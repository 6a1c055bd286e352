//! Which lines ask for what is built.
ghost use Rattle.std.specs.Prelude.{◌≡◌};
ghost use Rattle.line_reader.specs.Built.{is_built, is_built_word, is_device_word, is_store_word, is_transaction_word, is_upkeep_word};

use script::cut;

/// Whether a line is empty, a comment, or begins with a word that is built.
#[tactic(auto, unfolding(crate::specs::Built::is_built))]
pub fn is_built(line: &[u8]) -> bool
    ensures { result ≡ is_built line.now }
{
    match line {
        [] => true,
        [b'#', ..] => true,
        _ => {
            let (word, _) = cut(line);
            is_built_word(word)
        }
    }
}

fn is_built_word(word: &[u8]) -> bool
    ensures { result ≡ is_built_word word.now }
{
    is_transaction_word(word) || is_store_word(word) || is_device_word(word) || is_upkeep_word(word)
}

/// Whether it asks for something of the store.
fn is_store_word(word: &[u8]) -> bool
    ensures { result ≡ is_store_word word.now }
{
    word == b"format".as_slice()
        || word == b"open".as_slice()
        || word == b"stat".as_slice()
        || word == b"close".as_slice()
        || word == b"stop".as_slice()
}

/// Whether it asks for a fault of a device, or takes its fuse back.
fn is_device_word(word: &[u8]) -> bool
    ensures { result ≡ is_device_word word.now }
{
    word == b"damage".as_slice() || word == b"fuse".as_slice() || word == b"renew".as_slice()
}

/// Whether it asks for something that keeps the store up, or loses a part of it.
fn is_upkeep_word(word: &[u8]) -> bool
    ensures { result ≡ is_upkeep_word word.now }
{
    word == b"checkpoint".as_slice()
        || word == b"backup".as_slice()
        || word == b"archive".as_slice()
        || word == b"lose".as_slice()
        || word == b"help".as_slice()
}

/// Whether it asks for something of a transaction.
fn is_transaction_word(word: &[u8]) -> bool
    ensures { result ≡ is_transaction_word word.now }
{
    word == b"begin".as_slice()
        || word == b"get".as_slice()
        || word == b"put".as_slice()
        || word == b"del".as_slice()
        || word == b"scan".as_slice()
        || word == b"op".as_slice()
        || word == b"commit".as_slice()
        || word == b"abort".as_slice()
}
