// The bytes that a new gated file begins with.
ghost use Rattle.std.specs.Prelude.{◌≡◌, ◌∷◌, ◌++◌, [], IfOk, OnOk, IfSome};
ghost use Rattle.std.specs.Option.{option_copied};
ghost use Rattle.sasi_gated.specs.Format.{frame, new_gated_file, IsPayload};

use crate::Record;
use crate::header::magic_of;
use sasi_fields::{put_bytes, put_u8};
use sasi_formats::put_header;
use sasi_host::FileName;
use std::alloc::{AllocError, Global};

// The header, the first record behind an open gate if there is one, and a closed gate.
#[tactic(auto, unfolding(crate::specs::Format::header))]
pub fn new_file_bytes(
    alloc: Global,
    file: FileName,
    first: Option<&Record>,
) -> Result<Vec<u8>, AllocError>
    ensures bytes { IfOk result (λ out. out.items ≡ new_gated_file file (option_copied first.entry)) }
    ensures fits { OnOk result (IfSome (option_copied first.entry) IsPayload) }
{
    let mut out = Vec::new(alloc);
    put_header(&mut out, magic_of(file.kind), file.number)?;
    match first {
        None => put_u8(&mut out, 0)?,
        Some(item) => put_first(&mut out, item)?,
    }
    Ok(out)
}

fn put_first(out: &mut Vec<u8>, item: &Record) -> Result<(), AllocError>
    ensures bytes { OnOk result (out.new.items ≡ out.old.items ++ 1 ∷ (frame item.now ++ 0 ∷ [])) }
    ensures fits { OnOk result (IsPayload item.now) }
{
    put_u8(out, 1)?;
    put_bytes(out, item.bytes())
}
