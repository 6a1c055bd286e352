//! Lists of keys that take little more memory than the bytes of their keys.
ghost use Rattle.std.specs.Prelude.{◌≡◌, ◌≤◌, ◌+◌, ◌++◌, ◌∷◌, [], length, vec_len, vec_capacity, OnOk, OnErr};
ghost use Rattle.store_model.specs.declared.limits.TheConstants.{KEY_BYTES};
ghost use Rattle.range_lock.specs.Cut.{cut_into};

use std::alloc::{AllocError, Global};
use std::marker::Model;

/// A list of keys: their bytes, one key behind the other, and the length of each. A key by itself has room for the
/// longest one.
#[derive(Drop)]
pub struct KeyList {
    lengths: Vec<u8>,
    texts: Vec<u8>,
}

impl Model for KeyList {
    ghost use Rattle.std.specs.Prelude.{◌≡◌, List, ℕ, length};
    ghost use Rattle.std.specs.List.{sum};
    ghost use Rattle.range_lock.specs.Cut.{cut_into};

    ghost Value = { List (List ℕ) };

    ghost view = { λ k. cut_into k.lengths.items k.texts.items };

    ghost invariant = { λ k. length k.texts.items ≡ sum k.lengths.items };
}

/// Makes room for a text behind the others. Where there is none, it makes an eighth more than that, and doesn't double
/// what there is: the bytes of the keys are a large part of what locks take.
fn make_room(texts: &mut Vec<u8>, text: &[u8]) -> Result<(), AllocError>
    ensures same { texts.new.items ≡ texts.old.items }
    ensures room { OnOk result (vec_len texts.new + length text.now ≤ vec_capacity texts.new) }
{
    if texts.capacity() - texts.len() < text.len() {
        texts.reserve_exact(texts.len() / 8 + text.len())?;
    }
    Ok(())
}

impl KeyList {
    /// An empty list.
    #[tactic(auto, unfolding(crate::specs::Cut::cut_into))]
    pub fn new(alloc: Global) -> KeyList
        ensures { result ≡ [] }
    {
        KeyList {
            lengths: Vec::new(alloc),
            texts: Vec::new(alloc),
        }
    }

    /// Adds the key of these bytes at the end. Where memory runs out, the list is as before.
    pub fn push(&mut self, text: &[u8]) -> Result<(), AllocError>
        requires { length text.now ≤ KEY_BYTES }
        ensures ok { OnOk result (self.new ≡ self.old ++ text.now ∷ []) }
        ensures err { OnErr result (self.new ≡ self.old) }
    {
        let end = self.texts.len();
        make_room(&mut self.texts, text)?;
        self.texts.extend_from_slice(text)?;
        match self.lengths.push(text.len() as u8) {
            Ok(()) => Ok(()),
            Err(_) => {
                self.texts.truncate(end);
                Err(AllocError)
            }
        }
    }

    /// The lengths of its keys, and their bytes.
    pub fn parts(&self) -> (&[u8], &[u8])
        ensures { cut_into result.0.now result.1.now ≡ self.now }
    {
        (self.lengths.as_slice(), self.texts.as_slice())
    }
}
