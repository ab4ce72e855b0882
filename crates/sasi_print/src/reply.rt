// Replies.
ghost use Rattle.std.specs.Prelude.{◌≡◌, ◌++◌, [], OnOk};

use std::alloc::{AllocError, Global};
use std::marker::Model;

/// The reply to a piece, seen as its bytes. A call that fails may have added a part of its line: clear it then.
#[derive(Drop)]
pub struct Reply {
    pub(crate) bytes: Vec<u8>,
}

impl Model for Reply {
    ghost use Rattle.std.specs.Prelude.{List, ℕ};

    ghost Value = { List ℕ };

    ghost view = { λ a. a.bytes.items };
}

impl Reply {
    /// The empty reply.
    pub fn new(alloc: Global) -> Reply
        ensures { result ≡ [] }
    {
        Reply {
            bytes: Vec::new(alloc),
        }
    }

    /// The bytes of the reply.
    pub fn bytes(&self) -> &[u8]
        ensures { result.now ≡ self.now }
    {
        &self.bytes
    }

    /// Adds the bytes of another reply.
    pub fn append(&mut self, other: &Reply) -> Result<(), AllocError>
        ensures ok { OnOk result (self.new ≡ self.old ++ other.now) }
    {
        self.bytes.extend_from_slice(&other.bytes)?;
        Ok(())
    }

    /// Empties the reply.
    pub fn clear(&mut self)
        ensures { self.new ≡ [] }
    {
        self.bytes.clear();
    }
}
