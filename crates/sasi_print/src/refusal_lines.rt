// The lines of refusals.
ghost use Rattle.std.specs.Prelude.{◌≡◌, ◌++◌, [], true, codes, is_some, unwrap_or, OnOk};
ghost use Rattle.std.specs.Fmt.{decimal};
ghost use Rattle.sasi_model.specs.Lines.{refusal_line};
ghost use Rattle.sasi_model.specs.Refusals.{detail as detail_text};
ghost use Rattle.sasi_print.specs.Refusals.{refusal_about, refusal_at, refusal_name, refusal_with};

use crate::Reply;
use crate::values::push_number;
use std::alloc::AllocError;

/// Adds the line of the refusal with this number and detail. An empty detail stands for none.
pub fn refusal(reply: &mut Reply, number: u32, detail: &str) -> Result<(), AllocError>
    requires { is_some (refusal_name number) ≡ true }
    ensures ok { OnOk result (reply.new ≡ reply.old ++ refusal_line (refusal_with number detail.now)) }
{
    push_beginning(&mut reply.bytes, number)?;
    push_detail(&mut reply.bytes, detail.as_bytes())?;
    reply.bytes.push(b'\n')?;
    Ok(())
}

/// Adds the line of the refusal with this number, about a name or an option of these bytes. They needn't be UTF-8: a name may come
/// from the state.
pub fn refusal_about(reply: &mut Reply, number: u32, name: &[u8]) -> Result<(), AllocError>
    requires { is_some (refusal_name number) ≡ true }
    ensures ok { OnOk result (reply.new ≡ reply.old ++ refusal_line (refusal_about number name.now)) }
{
    push_beginning(&mut reply.bytes, number)?;
    reply.bytes.push(b' ')?;
    reply.bytes.extend_from_slice(name)?;
    reply.bytes.push(b'\n')?;
    Ok(())
}

/// Adds the line of the refusal with this number, at an offset in the piece.
pub fn refusal_at(reply: &mut Reply, number: u32, offset: usize) -> Result<(), AllocError>
    requires { is_some (refusal_name number) ≡ true }
    ensures ok { OnOk result (reply.new ≡ reply.old ++ refusal_line (refusal_at number offset)) }
{
    push_beginning(&mut reply.bytes, number)?;
    reply.bytes.extend_from_slice(b" at ")?;
    push_number(&mut reply.bytes, offset)?;
    reply.bytes.push(b'\n')?;
    Ok(())
}

// Adds what stands before the detail.
fn push_beginning(bytes: &mut Vec<u8>, number: u32) -> Result<(), AllocError>
    ensures ok { OnOk result (bytes.new.items ≡ bytes.old.items ++ (codes "error " ++ decimal number ++ codes " " ++ unwrap_or (refusal_name number) [])) }
{
    bytes.extend_from_slice(b"error ")?;
    push_number(bytes, number)?;
    bytes.push(b' ')?;
    bytes.extend_from_slice(name_of(number))?;
    Ok(())
}

// Adds a space and the detail, or nothing for an empty one.
fn push_detail(bytes: &mut Vec<u8>, detail: &[u8]) -> Result<(), AllocError>
    ensures ok { OnOk result (bytes.new.items ≡ bytes.old.items ++ detail_text detail.now) }
{
    if detail.is_empty() {
        return Ok(());
    }
    bytes.push(b' ')?;
    bytes.extend_from_slice(detail)?;
    Ok(())
}

// The name of the refusal with this number; empty where there is none.
fn name_of(number: u32) -> &'static [u8]
    ensures { result.now ≡ unwrap_or (refusal_name number) [] }
{
    match number {
        1 => b"Syntax",
        2 => b"StatementTooLong",
        3 => b"NotUtf8",
        4 => b"NoTable",
        5 => b"TableExists",
        6 => b"NoColumn",
        7 => b"ColumnRepeated",
        8 => b"WrongType",
        9 => b"NumberRange",
        10 => b"KeyMissing",
        11 => b"KeyEmpty",
        12 => b"ValueTooLong",
        13 => b"IndexExists",
        15 => b"BadOption",
        16 => b"ModeType",
        17 => b"OperatorUnsupported",
        18 => b"LikeEmpty",
        19 => b"NeedsFiltering",
        20 => b"TimestampRange",
        21 => b"ClockSpent",
        22 => b"CursorExists",
        23 => b"NoCursor",
        24 => b"TooMany",
        25 => b"Unfinished",
        90 => b"NotBuilt",
        _ => b"",
    }
}
