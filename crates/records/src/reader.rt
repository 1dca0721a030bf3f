// A reader over the bytes of a file, and the fields of its records.
ghost use Rattle.std.specs.Prelude.{◌≡◌, ℕ, List, length};
ghost use Rattle.records.specs.Fields.{read_byte, read_signed, read_slice, read_word, read_in};

use crate::fault::ReaderFault;
use std::marker::Model;

/// The bytes that are left.
#[derive(Drop)]
pub struct Reader<'a> {
    rest: &'a [u8],
}

impl<'a> Model for Reader<'a> {
    ghost Value = { List ℕ };

    ghost view = { λ r. r.rest.now };
}

impl<'a> Reader<'a> {
    pub fn new(file: &'a [u8]) -> Reader<'a>
        ensures { result ≡ file.now }
    {
        Reader { rest: file }
    }

    /// How many bytes are left.
    pub fn left(&self) -> usize
        ensures { result ≡ length self.now }
    {
        self.rest.len()
    }

    /// The next bytes, this many.
    pub fn slice(&mut self, size: usize) -> Result<&'a [u8], ReaderFault>
        ensures { read_in (λ s. s.now) result self.new ≡ read_slice size self.old }
    {
        let (field, rest) = self.rest.split_at_checked(size).ok_or(ReaderFault::Short)?;
        self.rest = rest;
        Ok(field)
    }

    /// The next bytes, as many as the array has.
    pub(crate) fn array<const N: usize>(&mut self) -> Result<[u8; N], ReaderFault>
        ensures { read_in (λ b. b) result self.new ≡ read_slice N self.old }
    {
        let (field, rest) = self.rest.split_first_chunk().ok_or(ReaderFault::Short)?;
        self.rest = rest;
        Ok(*field)
    }

    pub fn byte(&mut self) -> Result<u8, ReaderFault>
        ensures { read_in (λ b. b) result self.new ≡ read_byte self.old }
    {
        let [byte] = self.array::<1>()?;
        Ok(byte)
    }

    /// A number of four bytes, the highest first.
    pub fn word(&mut self) -> Result<u32, ReaderFault>
        ensures { read_in (λ n. n) result self.new ≡ read_word self.old }
    {
        Ok(u32::from_be_bytes(self.array()?))
    }

    /// A number of four bytes in two's complement.
    pub fn signed(&mut self) -> Result<i32, ReaderFault>
        ensures { read_in (λ z. z) result self.new ≡ read_signed self.old }
    {
        Ok(self.word()?.cast_signed())
    }
}
