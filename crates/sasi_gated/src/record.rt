// A record, as its bytes stand in a file behind the gate.
ghost use Rattle.std.specs.Prelude.{◌≡◌, ◌≤◌, ◌^◌, ◌++◌, ◌∷◌, [], length, IfOk};
ghost use Rattle.sasi_gated.specs.Format.{frame, IsPayload};

use sasi_fields::{put_bytes, put_u8, put_u32};
use std::alloc::{AllocError, Global};
use std::marker::Model;

/// A record to be appended to a gated file, seen as its payload. It keeps the bytes that stand behind the gate, so that an
/// append needs no memory.
#[derive(Drop)]
pub struct Record {
    bytes: Vec<u8>,
}

impl Model for Record {
    ghost use Rattle.std.specs.Prelude.{List, ℕ};
    ghost use Rattle.sasi_gated.specs.Records.{payload_in, IsFramed};

    ghost Value = { List ℕ };

    ghost view = { λ a. payload_in a.bytes.items };

    ghost invariant = { λ a. IsFramed a.bytes.items };
}

impl Record {
    /// A record with this payload.
    pub fn new(alloc: Global, payload: &[u8]) -> Result<Record, AllocError>
        requires some { 1 ≤ length payload.now }
        requires short { length payload.now ≤ 2 ^ 30 }
        ensures { IfOk result (λ r. r ≡ payload.now) }
    {
        let bytes = framed(alloc, payload)?;
        Ok(Record { bytes })
    }

    // The bytes behind its gate, with the closed gate that follows them.
    pub(crate) fn bytes(&self) -> &[u8]
        ensures whole { result.now ≡ frame self.now ++ 0 ∷ [] }
        ensures payload { IsPayload self.now }
    {
        &self.bytes
    }
}

fn framed(alloc: Global, payload: &[u8]) -> Result<Vec<u8>, AllocError>
    requires { length payload.now ≤ 2 ^ 30 }
    ensures { IfOk result (λ v. v.items ≡ frame payload.now ++ 0 ∷ []) }
{
    let mut out = Vec::with_capacity(alloc, payload.len() + 5)?;
    put_u32(&mut out, payload.len() as u32)?;
    put_bytes(&mut out, payload)?;
    put_u8(&mut out, 0)?;
    Ok(out)
}
