// A reader of fields over borrowed bytes.
ghost use Rattle.std.specs.Prelude.{◌≡◌, ◌<◌, ◌≤◌, ◌^◌, ◌↔◌, ◌∷◌, ◌++◌, [], ℕ, List, take, length, IfOk, IfErr, OnErr, IsErr};
ghost use Rattle.std.specs.Int.{to_be_bytes, w16, w32, w64};
ghost use Rattle.sasi_fields.specs.Reading.{ReadsField, RoundTrips};
ghost use Rattle.sasi_fields.specs.Ranges.{IsWithin, RangeCause};

use crate::fault::{FieldFault, ShortField};
use crate::number::{number_8, number_16, number_32, number_64};
use std::marker::Model;

/// Reads fields from borrowed bytes, one after another, without memory of its own. Contracts see the bytes that it has
/// read and those that are left.
#[derive(Drop)]
pub struct FieldReader<'a> {
    bytes: &'a [u8],
    at: usize,
}

impl<'a> Model for FieldReader<'a> {
    ghost use Rattle.std.specs.Prelude.{◌≤◌, length, take, drop};
    ghost use Rattle.sasi_fields.specs.Reading.{Reading};

    ghost Value = { Reading };

    ghost view = { λ a. record { done = take a.at a.bytes.now; left = drop a.at a.bytes.now } };

    ghost invariant = { λ a. a.at ≤ length a.bytes.now };
}

impl<'a> FieldReader<'a> {
    /// A reader that stands before the first of these bytes.
    pub fn new(bytes: &'a [u8]) -> FieldReader<'a>
        ensures { result ≡ record { done = []; left = bytes.now } }
    {
        FieldReader { bytes, at: 0 }
    }

    /// How many bytes it has read.
    pub fn offset(&self) -> usize
        ensures { result ≡ length self.now.done }
    {
        self.at
    }

    /// The bytes that are left.
    pub fn left(&self) -> &'a [u8]
        ensures { result.now ≡ self.now.left }
    {
        &self.bytes[self.at..]
    }

    /// The next bytes, so many of them.
    pub fn bytes(&mut self, count: usize) -> Result<&'a [u8], ShortField>
        ensures ok { IfOk result (λ field. ReadsField field.now self.old self.new) }
        ensures count { IfOk result (λ field. length field.now ≡ count) }
        ensures short { IsErr result ↔ (length self.old.left < count) }
        ensures offset { IfErr result (λ fault. fault.at ≡ length self.old.done) }
        ensures err { OnErr result (self.new ≡ self.old) }
    {
        let field = self.peek(count)?;
        self.pass(count);
        Ok(field)
    }

    // The next bytes; the reader stays before them.
    fn peek(&self, count: usize) -> Result<&'a [u8], ShortField>
        ensures ok { IfOk result (λ field. field.now ≡ take count self.now.left) }
        ensures count { IfOk result (λ field. length field.now ≡ count) }
        ensures short { IsErr result ↔ (length self.now.left < count) }
        ensures offset { IfErr result (λ fault. fault.at ≡ length self.now.done) }
    {
        if self.bytes.len() - self.at < count {
            return Err(ShortField { at: self.at });
        }
        Ok(&self.bytes[self.at..self.at + count])
    }

    // Moves over the next bytes.
    fn pass(&mut self, count: usize)
        requires { count ≤ length self.old.left }
        ensures { ReadsField (take count self.old.left) self.old self.new }
    {
        self.at += count;
    }
    /// The next byte.
    pub fn u8(&mut self) -> Result<u8, ShortField>
        ensures ok { IfOk result (λ n. ReadsField (n ∷ []) self.old self.new) }
        ensures round_trips { IfOk result (λ n. RoundTrips (2 ^ 8) (λ m. m ∷ []) n self.old self.new) }
        ensures fits { IfOk result (λ n. n < 2 ^ 8) }
        ensures short { IsErr result ↔ (length self.old.left < 1) }
        ensures offset { IfErr result (λ fault. fault.at ≡ length self.old.done) }
        ensures err { OnErr result (self.new ≡ self.old) }
    {
        Ok(number_8(self.bytes(1)?))
    }

    /// The next number of two bytes.
    pub fn u16(&mut self) -> Result<u16, ShortField>
        ensures ok { IfOk result (λ n. ReadsField (to_be_bytes w16 n) self.old self.new) }
        ensures round_trips { IfOk result (λ n. RoundTrips (2 ^ 16) (to_be_bytes w16) n self.old self.new) }
        ensures fits { IfOk result (λ n. n < 2 ^ 16) }
        ensures short { IsErr result ↔ (length self.old.left < 2) }
        ensures offset { IfErr result (λ fault. fault.at ≡ length self.old.done) }
        ensures err { OnErr result (self.new ≡ self.old) }
    {
        Ok(number_16(self.bytes(2)?))
    }

    /// The next number of four bytes.
    pub fn u32(&mut self) -> Result<u32, ShortField>
        ensures ok { IfOk result (λ n. ReadsField (to_be_bytes w32 n) self.old self.new) }
        ensures round_trips { IfOk result (λ n. RoundTrips (2 ^ 32) (to_be_bytes w32) n self.old self.new) }
        ensures fits { IfOk result (λ n. n < 2 ^ 32) }
        ensures short { IsErr result ↔ (length self.old.left < 4) }
        ensures offset { IfErr result (λ fault. fault.at ≡ length self.old.done) }
        ensures err { OnErr result (self.new ≡ self.old) }
    {
        Ok(number_32(self.bytes(4)?))
    }

    /// The next number of eight bytes.
    pub fn u64(&mut self) -> Result<u64, ShortField>
        ensures ok { IfOk result (λ n. ReadsField (to_be_bytes w64 n) self.old self.new) }
        ensures round_trips { IfOk result (λ n. RoundTrips (2 ^ 64) (to_be_bytes w64) n self.old self.new) }
        ensures fits { IfOk result (λ n. n < 2 ^ 64) }
        ensures short { IsErr result ↔ (length self.old.left < 8) }
        ensures offset { IfErr result (λ fault. fault.at ≡ length self.old.done) }
        ensures err { OnErr result (self.new ≡ self.old) }
    {
        Ok(number_64(self.bytes(8)?))
    }
    /// The next number of eight bytes, which has to lie from `least` to `greatest`. After an error the reader is unchanged.
    pub fn ranged_u64(&mut self, least: u64, greatest: u64) -> Result<u64, FieldFault>
        ensures ok { IfOk result (λ n. ReadsField (to_be_bytes w64 n) self.old self.new) }
        ensures round_trips { IfOk result (λ n. RoundTrips (2 ^ 64) (to_be_bytes w64) n self.old self.new) }
        ensures within { IfOk result (IsWithin least greatest) }
        ensures cause { IfErr result (RangeCause self.old least greatest) }
        ensures err { OnErr result (self.new ≡ self.old) }
    {
        let seen = number_64(self.peek(8)?);
        if seen < least || seen > greatest {
            return Err(FieldFault::BadField { at: self.at, seen });
        }
        self.pass(8);
        Ok(seen)
    }
}
