// Bytes in memory.
ghost use Rattle.std.specs.Prelude.{◌≡◌, ◌+◌, ◌^◌, ◌≤◌, [], length, IfOk, OnOk, OnErr};
ghost use Rattle.sasi_host.specs.Files.{overwritten};

use std::alloc::{AllocError, Global};
use std::marker::Model;

// The bytes of a file or of a call.
#[derive(Drop)]
pub struct ByteBuffer {
    bytes: Vec<u8>,
}

impl Model for ByteBuffer {
    ghost use Rattle.std.specs.Prelude.{ℕ, List};

    ghost Value = { List ℕ };

    ghost view = { λ b. b.bytes.items };
}

impl ByteBuffer {
    pub fn new(alloc: Global) -> ByteBuffer
        ensures { result ≡ [] }
    {
        ByteBuffer {
            bytes: Vec::new(alloc),
        }
    }

    pub fn from_slice(alloc: Global, bytes: &[u8]) -> Result<ByteBuffer, AllocError>
        ensures { IfOk result (λ b. b ≡ bytes.now) }
    {
        Ok(ByteBuffer {
            bytes: bytes.to_vec(alloc)?,
        })
    }

    pub fn as_slice(&self) -> &[u8]
        ensures { result.now ≡ self.now }
    {
        &self.bytes
    }

    // Writes over the bytes from this offset on, and past their end where the new ones reach further. It leaves no gap.
    pub fn write(&mut self, at: u64, bytes: &[u8]) -> Result<(), AllocError>
        requires { at + length bytes.now ≤ 2 ^ 62 }
        ensures ok { OnOk result (self.new ≡ overwritten self.old at bytes.now) }
        ensures err { OnErr result (self.new ≡ self.old) }
    {
        if at > self.bytes.len() as u64 {
            return Ok(());
        }
        let at = at as usize;
        let room = self.bytes.len() - at;
        if bytes.len() <= room {
            self.bytes[at..at + bytes.len()].copy_from_slice(bytes);
            return Ok(());
        }
        self.bytes.extend_from_slice(&bytes[room..])?;
        self.bytes[at..at + room].copy_from_slice(&bytes[..room]);
        Ok(())
    }
}

impl Clone for ByteBuffer {
    ghost is_clone = { λ old new. new ≡ old };

    fn clone(&self) -> Result<ByteBuffer, AllocError> {
        Ok(ByteBuffer {
            bytes: self.bytes.clone()?,
        })
    }
}
