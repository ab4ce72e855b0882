// The token of a key, which orders the partitions of a table.
ghost use Rattle.std.specs.Prelude.{◌≡◌, ◌++◌, take, replicate};
ghost use Rattle.sasi_types.specs.Murmur.{ordered};
ghost use Rattle.sasi_types.specs.Token.{token_of};

use crate::murmur::hash;

/// The token of a key: partitions are in the order of their tokens.
pub type Token = u64;

/// How a folder makes tokens of keys.
#[derive(Clone, Copy, Debug, PartialEq, Eq)]
pub enum Partitioner {
    /// The first eight bytes of the key, with zero bytes behind a shorter one, as a big-endian number.
    Lead8,
    /// The first half of MurmurHash3 of the key, in the order of signed numbers.
    Murmur3,
}

impl Partitioner {
    /// The token of the key with these bytes.
    #[tactic(auto, unfolding(crate::specs::Token::token_of))]
    pub fn token(self, key: &[u8]) -> Token
        ensures { result ≡ token_of self key.now }
    {
        match self {
            Partitioner::Lead8 => u64::from_be_bytes(first_eight(key)),
            Partitioner::Murmur3 => ordered(hash(key)),
        }
    }
}

// The first eight bytes of the key, with zero bytes behind a shorter one.
fn first_eight(key: &[u8]) -> [u8; 8]
    ensures { result ≡ take 8 (key.now ++ replicate 8 0) }
{
    let mut front = [0; 8];
    let count = key.len().min(8);
    front[..count].copy_from_slice(&key[..count]);
    front
}

// The hash that is the least of the signed numbers.
const LEAST: u64 = 1 << 63;

// A hash as a token: the least signed number is replaced by the largest, and the top bit is flipped.
#[tactic(auto, unfolding(crate::specs::Murmur::ordered))]
fn ordered(hash: u64) -> Token
    ensures { result ≡ ordered hash }
{
    let kept = if hash == LEAST { LEAST - 1 } else { hash };
    kept ^ (1 << 63)
}
