//! A line, field by field.
ghost use Rattle.std.specs.Prelude.{◌≡◌, ◌++◌, ◌<◌, IfOk, OnOk, codes};
ghost use Rattle.std.specs.Fmt.{decimal};
ghost use Rattle.std.specs.List.{flat_map};
ghost use Rattle.transcript.specs.Printing.{digit, escaped, escaped_byte};
ghost use Rattle.field_line.specs.Printing.{with_field, without_field, number_field};

use itoa::Buffer;
use script::is_plain;
use std::alloc::{AllocError, Global};
use std::marker::Model;

/// A line without its end.
#[derive(Drop)]
pub struct Line {
    bytes: Vec<u8>,
}

impl Model for Line {
    ghost use Rattle.std.specs.Prelude.{List, ℕ};

    ghost Value = { List ℕ };

    ghost view = { λ l. l.bytes.items };
}

impl Line {
    /// A line of one word.
    pub fn new(alloc: Global, word: &str) -> Result<Line, AllocError>
        ensures { IfOk result (λ l. l ≡ word.now) }
    {
        let mut bytes = Vec::new(alloc);
        bytes.extend_from_slice(word.as_bytes())?;
        Ok(Line { bytes })
    }

    /// Its bytes.
    pub fn as_bytes(&self) -> &[u8]
        ensures { result.now ≡ self.now }
    {
        &self.bytes
    }

    /// The line with its end.
    pub fn ended(self) -> Result<Vec<u8>, AllocError>
        ensures { IfOk result (λ v. v.items ≡ self ++ codes "\n") }
    {
        let Line { mut bytes } = self;
        bytes.extend_from_slice(b"\n")?;
        Ok(bytes)
    }

    /// Adds a word.
    pub fn word(&mut self, word: &str) -> Result<(), AllocError>
        ensures { OnOk result (self.new ≡ self.old ++ codes " " ++ word.now) }
    {
        self.put(b" ")?;
        self.put(word.as_bytes())
    }

    /// Adds a number without a name.
    pub fn count(&mut self, number: u64) -> Result<(), AllocError>
        ensures { OnOk result (self.new ≡ self.old ++ codes " " ++ decimal number) }
    {
        self.put(b" ")?;
        self.put_number(number)
    }

    /// Adds a number.
    pub fn number(&mut self, name: &str, number: u64) -> Result<(), AllocError>
        ensures { OnOk result (self.new ≡ with_field self.old name.now (decimal number)) }
    {
        self.word(name)?;
        self.put(b"=")?;
        self.put_number(number)
    }

    /// Adds numbers, one behind the other.
    pub fn numbers(&mut self, fields: &[(&str, u64)]) -> Result<(), AllocError>
        ensures { OnOk result (self.new ≡ self.old ++ flat_map number_field fields.now) }
    {
        for field in fields {
            self.number(field.0, field.1)?;
        }
        Ok(())
    }

    /// Adds a text.
    pub fn text(&mut self, name: &str, text: &[u8]) -> Result<(), AllocError>
        ensures { OnOk result (self.new ≡ with_field self.old name.now (escaped text.now)) }
    {
        self.word(name)?;
        self.put(b"=")?;
        self.put_token(text)
    }

    /// Adds a field that is absent.
    pub fn absent(&mut self, name: &str) -> Result<(), AllocError>
        ensures { OnOk result (self.new ≡ without_field self.old name.now) }
    {
        self.word(name)?;
        self.put(b" none")
    }

    /// Adds a text that may be absent.
    pub fn maybe(&mut self, name: &str, text: Option<&[u8]>) -> Result<(), AllocError> {
        match text {
            Some(text) => self.text(name, text),
            None => self.absent(name),
        }
    }

    fn put(&mut self, piece: &[u8]) -> Result<(), AllocError>
        ensures { OnOk result (self.new ≡ self.old ++ piece.now) }
    {
        self.bytes.extend_from_slice(piece)?;
        Ok(())
    }

    fn put_number(&mut self, number: u64) -> Result<(), AllocError>
        ensures { OnOk result (self.new ≡ self.old ++ decimal number) }
    {
        let mut buffer = Buffer::new();
        self.put(buffer.format(number).as_bytes())
    }

    #[tactic(auto, unfolding(transcript::specs::Printing::escaped))]
    fn put_token(&mut self, text: &[u8]) -> Result<(), AllocError>
        ensures { OnOk result (self.new ≡ self.old ++ escaped text.now) }
    {
        match text {
            [] => self.put(b"%"),
            _ => self.put_bytes(text),
        }
    }

    fn put_bytes(&mut self, text: &[u8]) -> Result<(), AllocError>
        ensures { OnOk result (self.new ≡ self.old ++ flat_map escaped_byte text.now) }
    {
        for byte in text {
            self.put_byte(*byte)?;
        }
        Ok(())
    }

    fn put_byte(&mut self, byte: u8) -> Result<(), AllocError>
        ensures { OnOk result (self.new ≡ self.old ++ escaped_byte byte) }
    {
        if is_plain(byte) {
            self.put(&[byte])
        } else {
            self.put(&[b'%', digit(byte / 16), digit(byte % 16)])
        }
    }
}

fn digit(number: u8) -> u8
    requires { number < 16 }
    ensures { result ≡ digit number }
{
    if number < 10 {
        48 + number
    } else {
        87 + number
    }
}
