// New indexes.
ghost use Rattle.std.specs.Prelude.{◌≡◌, ◌∷◌, [], IfOk, OnErr, OnOk};
ghost use Rattle.sasi_layout.specs.Layout.{state_of};
ghost use Rattle.sasi_layout.specs.Moves.{after_define};
ghost use Rattle.sasi_machine.specs.Prepares.{IsAddable};
ghost use Rattle.sasi_manifest.specs.Listings.{index_edit};
ghost use Rattle.sasi_schema.specs.SchemaViews.{index_of_new};
ghost use Rattle.sasi_machine_layout.specs.Contents.{IsContents, layout_of};

use crate::contents::Contents;
use crate::records::{length_with, number_after, record_after};
use sasi_manifest::{Edit, EditList};
use sasi_schema::NewIndex;
use sasi_types::IndexDef;
use std::alloc::{AllocError, Global};

/// Defines an index that was prepared, under the next number.
pub fn define(contents: &mut Contents, new: NewIndex) -> Result<(), AllocError>
    requires contents { IsContents contents.old }
    requires addable { IsAddable (state_of (layout_of contents.old)) new }
    ensures ok { OnOk result (layout_of contents.new ≡ after_define new.table (index_of_new new) (layout_of contents.old)) }
    ensures err { OnErr result (layout_of contents.new ≡ layout_of contents.old) }
    ensures kept { IsContents contents.new }
{
    let last = contents.schema.last_index();
    let number = number_after(last)?;
    let def = new.numbered(number);
    let edits = define_edits(contents.alloc, &def)?;
    let length = length_with(contents.length, &edits)?;
    let records = record_after(contents.records)?;
    contents.schema.restore_index(def)?;
    contents.length = length;
    contents.records = records;
    Ok(())
}

// The manifest's record of it.
fn define_edits(alloc: Global, def: &IndexDef) -> Result<EditList, AllocError>
    ensures { IfOk result (λ edits. edits ≡ index_edit def.now ∷ []) }
{
    let mut edits = EditList::new(alloc);
    edits.push(Edit::create_index(def.copy(alloc)?))?;
    Ok(edits)
}
