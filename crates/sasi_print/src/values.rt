// Values, as rows print them.
ghost use Rattle.std.specs.Prelude.{◌≡◌, ◌++◌, OnOk};
ghost use Rattle.std.specs.List.{flat_map};
ghost use Rattle.uuid.specs.Text.{hyphenated_text, lower};
ghost use Rattle.sasi_model.specs.Abbreviations.{printed_byte, text_printed};
ghost use Rattle.sasi_model.specs.Lines.{value_printed};

use itoa::{Buffer, Integer};
use sasi_types::Value;
use std::alloc::AllocError;
use uuid::Uuid;

// Adds a value.
pub(crate) fn push_live(reply: &mut Vec<u8>, value: &Value) -> Result<(), AllocError>
    ensures ok { OnOk result (reply.new.items ≡ reply.old.items ++ value_printed value.now) }
{
    match value {
        Value::Text(text) => push_text(reply, text.bytes()),
        Value::Int(number) => push_number(reply, *number),
        Value::BigInt(number) => push_number(reply, *number),
        Value::Uuid(bytes) => push_uuid(reply, *bytes),
    }
}

// Adds a number in decimal.
pub(crate) fn push_number<I: Integer>(reply: &mut Vec<u8>, number: I) -> Result<(), AllocError>
    ensures ok { OnOk result (reply.new.items ≡ reply.old.items ++ I.text number) }
{
    let mut buffer = Buffer::new();
    reply.extend_from_slice(buffer.format(number).as_bytes())?;
    Ok(())
}

// Adds a text in quotes, with its quotes doubled.
pub(crate) fn push_text(reply: &mut Vec<u8>, text: &[u8]) -> Result<(), AllocError>
    ensures ok { OnOk result (reply.new.items ≡ reply.old.items ++ text_printed text.now) }
{
    reply.push(b'\'')?;
    push_doubled(reply, text)?;
    reply.push(b'\'')?;
    Ok(())
}

// Adds a text with its quotes doubled. One without quotes is added as it is.
fn push_doubled(reply: &mut Vec<u8>, text: &[u8]) -> Result<(), AllocError>
    ensures ok { OnOk result (reply.new.items ≡ reply.old.items ++ flat_map printed_byte text.now) }
{
    if !text.contains(&b'\'') {
        return reply.extend_from_slice(text);
    }
    for byte in text {
        if *byte == b'\'' {
            reply.push(b'\'')?;
        }
        reply.push(*byte)?;
    }
    Ok(())
}

// Adds a uuid with hyphens, in lower case.
pub(crate) fn push_uuid(reply: &mut Vec<u8>, bytes: [u8; 16]) -> Result<(), AllocError>
    ensures ok { OnOk result (reply.new.items ≡ reply.old.items ++ hyphenated_text lower bytes) }
{
    let mut buffer = Uuid::encode_buffer();
    let text = Uuid::from_bytes(bytes)
        .hyphenated()
        .encode_lower(&mut buffer);
    reply.extend_from_slice(text.as_bytes())?;
    Ok(())
}
