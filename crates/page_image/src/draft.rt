//! The bytes of a page behind its digest, as they are written.
ghost use Rattle.std.specs.Prelude.{◌≡◌, ◌≤◌, ◌<◌, ◌+◌, ◌++◌, [], length};
ghost use Rattle.std.specs.Int.{w8, w16, w32, w64};
ghost use Rattle.wal_record.specs.Spelling.{number_bytes, text_bytes, value_bytes};
ghost use Rattle.page_image.specs.declared.layout.TheConstants.{BODY_BYTES};

use crate::layout::BODY_BYTES;
use arrayvec::ArrayVec;
use std::marker::Model;

/// The bytes written so far, at most [`BODY_BYTES`]. It takes no memory.
#[derive(Drop)]
pub struct Draft {
    bytes: ArrayVec<u8, BODY_BYTES>,
}

impl Model for Draft {
    ghost use Rattle.std.specs.Prelude.{List, ℕ, ◌≤◌, length};
    ghost use Rattle.page_image.specs.declared.layout.TheConstants.{BODY_BYTES};

    ghost Value = { List ℕ };

    ghost view = { λ d. d.bytes.items };

    ghost invariant = { λ d. length d.bytes.items ≤ BODY_BYTES };
}

impl Draft {
    /// No bytes.
    pub fn new() -> Draft
        ensures { result ≡ [] }
    {
        Draft {
            bytes: ArrayVec::new(),
        }
    }

    /// Its bytes.
    pub fn as_bytes(&self) -> &[u8]
        ensures bytes { result.now ≡ self.now }
        ensures fits { length result.now ≤ BODY_BYTES }
    {
        self.bytes.as_slice()
    }

    /// Appends bytes.
    pub fn put(&mut self, piece: &[u8])
        requires { length self.old + length piece.now ≤ BODY_BYTES }
        ensures bytes { self.new ≡ self.old ++ piece.now }
        ensures len { length self.new ≡ length self.old + length piece.now }
    {
        match self.bytes.try_extend_from_slice(piece) {
            Ok(()) => {}
            Err(_) => {}
        }
    }

    /// Appends a byte.
    #[tactic(auto, unfolding(wal_record::specs::Spelling::number_bytes))]
    pub fn put_u8(&mut self, n: u8)
        requires { length self.old + 1 ≤ BODY_BYTES }
        ensures bytes { self.new ≡ self.old ++ number_bytes w8 n }
        ensures len { length self.new ≡ length self.old + 1 }
    {
        self.put(&n.to_be_bytes());
    }

    /// Appends a number in two bytes.
    #[tactic(auto, unfolding(wal_record::specs::Spelling::number_bytes))]
    pub fn put_u16(&mut self, n: u16)
        requires { length self.old + 2 ≤ BODY_BYTES }
        ensures bytes { self.new ≡ self.old ++ number_bytes w16 n }
        ensures len { length self.new ≡ length self.old + 2 }
    {
        self.put(&n.to_be_bytes());
    }

    /// Appends a number in four bytes.
    #[tactic(auto, unfolding(wal_record::specs::Spelling::number_bytes))]
    pub fn put_u32(&mut self, n: u32)
        requires { length self.old + 4 ≤ BODY_BYTES }
        ensures bytes { self.new ≡ self.old ++ number_bytes w32 n }
        ensures len { length self.new ≡ length self.old + 4 }
    {
        self.put(&n.to_be_bytes());
    }

    /// Appends a number in eight bytes.
    #[tactic(auto, unfolding(wal_record::specs::Spelling::number_bytes))]
    pub fn put_u64(&mut self, n: u64)
        requires { length self.old + 8 ≤ BODY_BYTES }
        ensures bytes { self.new ≡ self.old ++ number_bytes w64 n }
        ensures len { length self.new ≡ length self.old + 8 }
    {
        self.put(&n.to_be_bytes());
    }

    /// Appends a text of at most 255 bytes behind its length.
    #[tactic(auto, unfolding(wal_record::specs::Spelling::text_bytes))]
    pub fn put_text(&mut self, text: &[u8])
        requires short { length text.now < 256 }
        requires room { length self.old + 1 + length text.now ≤ BODY_BYTES }
        ensures bytes { self.new ≡ self.old ++ text_bytes text.now }
        ensures len { length self.new ≡ length self.old + 1 + length text.now }
    {
        self.put(&[text.len() as u8]);
        self.put(text);
    }

    /// Appends the bytes of a value behind their length.
    #[tactic(auto, unfolding(wal_record::specs::Spelling::value_bytes))]
    pub fn put_value(&mut self, value: &[u8])
        requires short { length value.now ≤ 256 }
        requires room { length self.old + 2 + length value.now ≤ BODY_BYTES }
        ensures bytes { self.new ≡ self.old ++ value_bytes value.now }
        ensures len { length self.new ≡ length self.old + 2 + length value.now }
    {
        self.put(&(value.len() as u16).to_be_bytes());
        self.put(value);
    }
}
