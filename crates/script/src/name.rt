//! Names of transactions in a script.
ghost use Rattle.std.specs.Prelude.{◌≡◌, ◌≤◌, ◌↔◌, IfSome, IsSome, length};
ghost use Rattle.std.specs.List.{list_all};
ghost use Rattle.script.specs.Name.{is_letter, is_sign, is_name, begins_with_letter, name_of};

use arrayvec::ArrayVec;
use std::marker::Model;

/// The name of a transaction: a letter, and up to 15 letters or digits.
#[derive(Drop)]
pub struct Name {
    bytes: ArrayVec<u8, 16>,
}

impl Model for Name {
    ghost use Rattle.std.specs.Prelude.{List, ℕ, ◌≤◌, length};

    ghost Value = { List ℕ };

    ghost view = { λ name. name.bytes.items };

    ghost invariant = { λ name. length name.bytes.items ≤ 16 };
}

impl Name {
    /// The name that a word is, if it is one.
    #[tactic(auto, using(crate::proofs::Options::is_some), unfolding(crate::specs::Name::is_name))]
    pub fn new(word: &[u8]) -> Option<Name>
        ensures { result ≡ name_of word.now }
    {
        if is_name(word) {
            Name::of_short(word)
        } else {
            None
        }
    }

    fn of_short(word: &[u8]) -> Option<Name>
        ensures value { IfSome result (λ name. name ≡ word.now) }
        ensures exact { IsSome result ↔ (length word.now ≤ 16) }
    {
        match ArrayVec::try_from(word) {
            Ok(bytes) => Some(Name { bytes }),
            Err(_) => None,
        }
    }

    /// The same name again. It takes no memory.
    pub fn copied(&self) -> Name
        ensures { result ≡ self.now }
    {
        let mut bytes = ArrayVec::new();
        for byte in self.as_bytes() {
            bytes.push(*byte);
        }
        Name { bytes }
    }

    /// Its bytes.
    pub fn as_bytes(&self) -> &[u8]
        ensures value { result.now ≡ self.now }
        ensures fits { length self.now ≤ 16 }
    {
        self.bytes.as_slice()
    }
}

fn is_letter(byte: u8) -> bool
    ensures { result ≡ is_letter byte }
{
    (b'A' <= byte && byte <= b'Z') || (b'a' <= byte && byte <= b'z')
}

fn is_sign(byte: u8) -> bool
    ensures { result ≡ is_sign byte }
{
    is_letter(byte) || (b'0' <= byte && byte <= b'9')
}

fn begins_with_letter(word: &[u8]) -> bool
    ensures { result ≡ begins_with_letter word.now }
{
    match word {
        [] => false,
        [first, ..] => is_letter(*first),
    }
}

fn all_signs(word: &[u8]) -> bool
    ensures { result ≡ list_all is_sign word.now }
{
    word.iter().all(|byte| is_sign(*byte))
}

#[tactic(auto, unfolding(crate::specs::Name::is_name))]
fn is_name(word: &[u8]) -> bool
    ensures { result ≡ is_name word.now }
{
    if !begins_with_letter(word) {
        return false;
    }
    if !all_signs(word) {
        return false;
    }
    word.len() <= 16
}
