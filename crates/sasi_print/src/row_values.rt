// The values of a row.
ghost use Rattle.std.specs.Prelude.{◌≡◌, ◌++◌, codes, OnOk};
ghost use Rattle.std.specs.List.{flat_map};
ghost use Rattle.sasi_model.specs.Abbreviations.{row_text};
ghost use Rattle.sasi_model.specs.Lines.{printed};

use crate::values::push_live;
use sasi_types::Value;
use std::alloc::AllocError;

// Adds the values of a row, with ` | ` between them.
pub(crate) fn push_values(reply: &mut Vec<u8>, values: &[Option<Value>]) -> Result<(), AllocError>
    ensures ok { OnOk result (reply.new.items ≡ reply.old.items ++ row_text values.now) }
{
    let [first, others @ ..] = values else {
        return Ok(());
    };
    push_value(reply, first)?;
    push_others(reply, others)
}

// Adds the values after the first.
fn push_others(reply: &mut Vec<u8>, values: &[Option<Value>]) -> Result<(), AllocError>
    ensures ok { OnOk result (reply.new.items ≡ reply.old.items ++ flat_map (λ value. codes " | " ++ printed value) values.now) }
{
    for value in values {
        reply.extend_from_slice(b" | ")?;
        push_value(reply, value)?;
    }
    Ok(())
}

// Adds a value, or `null` where there is none.
fn push_value(reply: &mut Vec<u8>, value: &Option<Value>) -> Result<(), AllocError>
    ensures ok { OnOk result (reply.new.items ≡ reply.old.items ++ printed value.now) }
{
    match value {
        None => {
            reply.extend_from_slice(b"null")?;
            Ok(())
        }
        Some(value) => push_live(reply, value),
    }
}
