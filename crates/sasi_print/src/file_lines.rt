// The lines of files.
ghost use Rattle.std.specs.Prelude.{◌≡◌, ◌++◌, OnOk};
ghost use Rattle.sasi_model.specs.Lines.{line};
ghost use Rattle.sasi_print.specs.Files.{file_count_line, file_text, state_word};

use crate::Reply;
use crate::values::push_number;
use sasi_host::FileName;
use sasi_names::NameText;
use std::alloc::AllocError;
use std::io::Write;

/// Where a data or index file stands.
#[derive(Clone, Copy, Debug)]
pub enum FileState {
    /// The manifest lists it.
    Current,
    /// The manifest doesn't list it any more, but an open cursor holds it.
    Obsolete,
    /// A running task writes it.
    Building,
}

impl FileState {
    // Its word.
    fn word(self) -> &'static str
        ensures { result.now ≡ state_word self }
    {
        match self {
            FileState::Current => "current",
            FileState::Obsolete => "obsolete",
            FileState::Building => "building",
        }
    }
}

/// Adds the line of a file, which so many cursors hold.
pub fn file_line(
    reply: &mut Reply,
    file: FileName,
    state: FileState,
    pinned: u32,
) -> Result<(), AllocError>
    ensures ok { OnOk result (reply.new ≡ reply.old ++ line (file_text file state pinned)) }
{
    let (name, state) = (NameText(file), state.word());
    match writeln!(reply.bytes, "{name} {state} pinned {pinned}") {
        Ok(()) => Ok(()),
        Err(_) => Err(AllocError),
    }
}

/// Adds the line with the number of files.
pub fn file_count(reply: &mut Reply, files: u64) -> Result<(), AllocError>
    ensures ok { OnOk result (reply.new ≡ reply.old ++ file_count_line files) }
{
    reply.bytes.push(b'(')?;
    push_number(&mut reply.bytes, files)?;
    reply.bytes.extend_from_slice(b" files)\n")?;
    Ok(())
}
