// The printed rows of a cursor.
ghost use Rattle.std.specs.Prelude.{◌≡◌, ◌++◌, drop, take, OnErr, OnOk};
ghost use Rattle.std.specs.List.{flat_map};
ghost use Rattle.sasi_machine.specs.MachineView.{printed_rows};

use crate::Reply;
use sasi_print::count;
use std::alloc::AllocError;
use std::marker::Model;

/// The rows of a SELECT as they are printed, of which the first are given already. Seen as the lines of those that are left.
#[derive(Drop)]
pub struct PrintedRows {
    // A reply for each row, which is its line.
    lines: Vec<Reply>,
    given: usize,
}

impl Model for PrintedRows {
    ghost use Rattle.std.specs.Prelude.{◌≤◌, List, ℕ, drop, length};

    ghost Value = { List (List ℕ) };

    ghost view = { λ rows. drop rows.given rows.lines.items };

    ghost invariant = { λ rows. rows.given ≤ length rows.lines.items };
}

impl PrintedRows {
    /// Rows of which none is given yet.
    pub fn new(lines: Vec<Reply>) -> PrintedRows
        ensures { result ≡ lines.items }
    {
        PrintedRows { lines, given: 0 }
    }

    /// Prints the next rows, at most this many, and their number. An error leaves the rows as they were; the reply may then be incomplete.
    pub fn fetch(&mut self, most: usize, reply: &mut Reply) -> Result<(), AllocError>
        ensures printed { OnOk result (reply.new ≡ reply.old ++ printed_rows (take most self.old)) }
        ensures rest { OnOk result (self.new ≡ drop most self.old) }
        ensures unchanged { OnErr result (self.new ≡ self.old) }
    {
        let left = &self.lines[self.given..];
        let next = most.min(left.len());
        print_rows(&left[..next], reply)?;
        self.given += next;
        Ok(())
    }
}

/// Prints rows by their lines, and their number.
pub fn print_rows(lines: &[Reply], reply: &mut Reply) -> Result<(), AllocError>
    ensures { OnOk result (reply.new ≡ reply.old ++ printed_rows lines.now) }
{
    print_lines(lines, reply)?;
    count(reply, lines.len() as u64)
}

fn print_lines(lines: &[Reply], reply: &mut Reply) -> Result<(), AllocError>
    ensures { OnOk result (reply.new ≡ reply.old ++ flat_map (λ line. line) lines.now) }
{
    for line in lines {
        reply.append(line)?;
    }
    Ok(())
}
