// Layouts.
ghost use Rattle.std.specs.Prelude.{◌≡◌, ◌++◌, map, IfErr, IfOk, OnErr, OnOk};
ghost use Rattle.sasi_layout.specs.FileNames.{file_names};
ghost use Rattle.sasi_layout.specs.Moves.{after_moves};
ghost use Rattle.sasi_layout.specs.Shape.{new_layout};
ghost use Rattle.sasi_layout.specs.Statements.{definitions_of};
ghost use Rattle.sasi_machine.specs.Classes.{OnMissing, TablesLack};
ghost use Rattle.sasi_model.specs.Lines.{files_lines};
ghost use Rattle.sasi_model.specs.WellFormed.{IsWellFormed, IsWellFormedSelect};
ghost use Rattle.sasi_print.specs.Files.{file_text};
ghost use Rattle.sasi_print.specs.declared.file_lines.FileState.TheVariants.{Current};
ghost use Rattle.sasi_machine_layout.specs.Checks.{answered_checks};
ghost use Rattle.sasi_machine_layout.specs.Steps.{IsMadeInPart, statement_moves};

use crate::candidates::candidates;
use crate::contents::Contents;
use crate::files::files;
use crate::moves::step;
use sasi_analyzers::Kit;
use sasi_machine::Reply;
use sasi_schema::Schema;
use sasi_types::{KitFault, Partitioner, Select, Statement};
use std::alloc::{AllocError, Global};
use std::marker::Model;

/// What a store holds part by part. Contracts see it as the layout of the definitions.
#[derive(Drop)]
pub struct Layout {
    contents: Contents,
}

impl Model for Layout {
    ghost use Rattle.sasi_layout.specs.Layout.{Layout as Seen};
    ghost use Rattle.sasi_machine_layout.specs.Codes.{coded_layout};
    ghost use Rattle.sasi_machine_layout.specs.Contents.{IsContents, layout_of};

    ghost Value = { Seen };

    ghost coded = { coded_layout };

    ghost view = { λ a. layout_of a.contents };

    ghost invariant = { λ a. IsContents a.contents };
}

impl Layout {
    /// The layout of a new folder.
    pub fn new(alloc: Global, partitioner: Partitioner) -> Layout
        ensures { result ≡ new_layout partitioner }
    {
        Layout {
            contents: Contents {
                alloc,
                partitioner,
                floor: 1,
                last: 1,
                records: 1,
                length: 36,
                schema: Schema::new(alloc),
                tables: Vec::new(alloc),
                manifest: 1,
                data: 0,
                part: 0,
                max_timestamp: 0,
            },
        }
    }

    /// Makes the moves of a statement, none where it is refused. Where a number or a length would pass its bits, it is out of memory.
    pub fn step(&mut self, statement: Statement) -> Result<(), AllocError>
        requires { IsWellFormed statement }
        ensures ok { OnOk result (self.new ≡ after_moves (statement_moves self.old statement) self.old) }
        // Out of memory may leave a write whose flush is still to come.
        ensures err { OnErr result (IsMadeInPart (statement_moves self.old statement) self.old self.new) }
    {
        step(&mut self.contents, statement)
    }

    /// How many candidates a SELECT checks, none where it is refused.
    pub fn candidates(&self, kit: &mut Kit, select: &Select) -> Result<u64, KitFault>
        requires { IsWellFormedSelect select.now }
        ensures checks { IfOk result (λ count. count ≡ answered_checks self.now select.now) }
        // A class is missing only where an index needs it.
        ensures missing { IfErr result (OnMissing (TablesLack (map (λ b. kind (b.vtable, b.value)) kit.old.objects.items) (definitions_of self.now))) }
        ensures kinds { map (λ b. kind (b.vtable, b.value)) kit.new.objects.items ≡ map (λ b. kind (b.vtable, b.value)) kit.old.objects.items }
    {
        candidates(&self.contents, kit, select)
    }

    /// Adds the lines of SHOW FILES: one for each data file and index file, by number, and the number of them.
    pub fn files(&self, reply: &mut Reply) -> Result<(), AllocError>
        ensures { OnOk result (reply.new ≡ reply.old ++ files_lines (map (λ name. file_text name Current 0) (file_names self.now))) }
    {
        files(&self.contents, reply)
    }
}
