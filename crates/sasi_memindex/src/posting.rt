// Postings of an index.
ghost use Rattle.std.specs.Prelude.{◌≡◌, ◌≤◌, length, IfOk};
ghost use Rattle.sasi_memindex.specs.Postings.{posting};

use sasi_types::{DecoratedKey, Key, Term};
use std::alloc::{AllocError, Global};

/// A term, and a key that has it. Postings are in the order of their terms, and then of their keys.
#[derive(Debug, PartialEq, Eq, PartialOrd, Ord, Drop)]
pub struct Posting {
    pub term: Term,
    pub key: DecoratedKey,
}

impl Posting {
    /// The posting of copies of a term and a key.
    pub fn new(alloc: Global, term: &[u8], key: &DecoratedKey) -> Result<Posting, AllocError>
        ensures made { IfOk result (λ made. made ≡ posting term.now key.now) }
        ensures some { IfOk result (λ made. 1 ≤ length made.key.key) }
    {
        let bytes = Vec::from_slice(alloc, term)?;
        let key = copy_key(alloc, key)?;
        Ok(Posting {
            term: Term::new(bytes),
            key,
        })
    }
}

/// A copy of a key. A key has a byte, so the only fault is out of memory.
pub fn copy_key(alloc: Global, key: &DecoratedKey) -> Result<DecoratedKey, AllocError>
    ensures copy { IfOk result (λ copy. copy ≡ key.now) }
    ensures some { IfOk result (λ copy. 1 ≤ length copy.key) }
{
    match Key::new(alloc, key.key.bytes()) {
        Ok(bytes) => Ok(DecoratedKey {
            token: key.token,
            key: bytes,
        }),
        Err(_) => Err(AllocError),
    }
}
