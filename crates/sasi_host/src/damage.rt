// Corruption: the rule of its format that a file breaks.
ghost use Rattle.std.specs.Prelude.{◌≡◌, ◌≢◌, ◌+◌, ◌^◌, ◌<◌, ◌≤◌, length, take, drop, IfErr, OnOk};
ghost use Rattle.sasi_host.specs.Damages.{IsOther, seen_bytes};

use crate::FileName;

/// The rule of a format that a file breaks.
#[derive(Clone, Copy, Debug, PartialEq, Eq)]
pub enum FormatRule {
    /// The file has fewer bytes than the format needs there.
    Short,
    /// The manifest of the highest seal, or a live segment of the log or a file that it lists, isn't in the folder.
    Missing,
    /// No seal is there, and this file is neither the first manifest nor the first segment of the log.
    NoSeal,
    /// A magic text differs.
    Magic,
    /// The version isn't a known one.
    Version,
    /// A number field is outside its range, or names what isn't there.
    Number,
    /// An item doesn't follow the one before it.
    Order,
    /// An offset leads outside the file, or to a wrong part of it.
    Place,
    /// Bytes that must be UTF-8, a value of a type or a free name aren't.
    Text,
}

/// Up to eight bytes of a file: the first `len` of `bytes`, and zeros after them.
#[derive(Clone, Copy, Debug, PartialEq, Eq)]
pub struct Seen {
    pub bytes: [u8; 8],
    pub len: u8,
}

impl Seen {
    /// The first eight of these bytes, or all of them where they are fewer.
    pub fn of(bytes: &[u8]) -> Seen
        ensures { seen_bytes result ≡ take 8 bytes.now }
    {
        let mut seen = [0; 8];
        let len = bytes.len().min(8);
        seen[..len].copy_from_slice(&bytes[..len]);
        Seen {
            bytes: seen,
            len: len as u8,
        }
    }
}

/// A rule that a file breaks, where it does so, and what it has there.
#[derive(Clone, Copy, Debug, PartialEq, Eq)]
pub struct Damage {
    pub file: FileName,
    /// The offset in the file.
    pub at: u64,
    pub rule: FormatRule,
    pub seen: Seen,
}

/// The damage of a file that breaks the rule at this offset, where it has these bytes.
pub fn found(file: FileName, at: u64, rule: FormatRule, bytes: &[u8]) -> Damage
    requires { length bytes.now ≤ 8 }
    ensures file { result.file ≡ file }
    ensures at { result.at ≡ at }
    ensures rule { result.rule ≡ rule }
    ensures seen { seen_bytes result.seen ≡ bytes.now }
{
    Damage {
        file,
        at,
        rule,
        seen: Seen::of(bytes),
    }
}

/// Checks that the wanted bytes stand at `start` of `bytes`, which stand at the offset `at` of the file.
pub fn check_part(
    file: FileName,
    at: u64,
    bytes: &[u8],
    start: usize,
    wanted: &[u8],
    rule: FormatRule,
) -> Result<(), Damage>
    requires whole { start + length wanted.now ≤ length bytes.now }
    requires most { length wanted.now ≤ 8 }
    requires start { at + start < 2 ^ 64 }
    ensures ok { OnOk result (take (length wanted.now) (drop start bytes.now) ≡ wanted.now) }
    ensures seen { IfErr result (IsOther file at bytes.now start wanted.now rule) }
    ensures differs { IfErr result (λ _. take (length wanted.now) (drop start bytes.now) ≢ wanted.now) }
{
    let seen = &bytes[start..start + wanted.len()];
    if seen != wanted {
        return Err(found(file, at + start as u64, rule, seen));
    }
    Ok(())
}
