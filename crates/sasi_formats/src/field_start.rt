// Where a field begins.
ghost use Rattle.std.specs.Prelude.{◌≡◌, ◌≢◌, ◌≤◌, length, take};
ghost use Rattle.sasi_formats.specs.Gives.{IsBrokenRule};
ghost use Rattle.sasi_formats.specs.declared.fault.FormatFault.TheVariants as fault;

use crate::fault::{FormatFault, broken_at};
use sasi_fields::FieldReader;
use sasi_host::FormatRule;

/// The offset at which a field begins, and the bytes from there on.
#[derive(Clone, Copy)]
pub struct FieldStart<'a> {
    pub at: usize,
    pub left: &'a [u8],
}

impl<'a> FieldStart<'a> {
    /// The offset of the reader, and the bytes that are left.
    pub fn of(reader: &FieldReader<'a>) -> FieldStart<'a>
        ensures at { result.at ≡ length reader.now.done }
        ensures left { result.left.now ≡ reader.now.left }
    {
        FieldStart {
            at: reader.offset(),
            left: reader.left(),
        }
    }

    /// The field that begins here breaks the rule. So many bytes are reported, or all that are left.
    pub fn broken(&self, rule: FormatRule, seen: usize) -> FormatFault
        requires { seen ≤ 8 }
        ensures rule { IsBrokenRule rule self.now.at (take seen self.now.left.now) result }
        ensures memory { result ≢ fault.OutOfMemory }
    {
        broken(rule, self.at, front(self.left, seen))
    }
}

/// The bytes at this offset break the rule. The first eight of them are reported.
pub fn broken(rule: FormatRule, at: usize, bytes: &[u8]) -> FormatFault
    ensures rule { IsBrokenRule rule at (take 8 bytes.now) result }
    ensures memory { result ≢ fault.OutOfMemory }
{
    FormatFault::Broken(broken_at(rule, at, bytes))
}

// The first bytes, so many of them, or all that there are.
fn front(bytes: &[u8], most: usize) -> &[u8]
    ensures bytes { result.now ≡ take most bytes.now }
    ensures few { length result.now ≤ most }
{
    &bytes[..bytes.len().min(most)]
}
