// Lists of edits, and how long their records are.
ghost use Rattle.std.specs.Prelude.{◌≡◌, ◌++◌, ◌∷◌, ◌^◌, ◌-◌, [], min, length, OnOk, OnErr};
ghost use Rattle.sasi_manifest.specs.Edits.{encoded};

use crate::Edit;
use crate::size::edits_size;
use std::alloc::{AllocError, Global};
use std::marker::Model;

/// Edits that take effect together, in their order.
#[derive(Drop)]
pub struct EditList {
    items: Vec<Edit>,
}

impl Model for EditList {
    ghost use Rattle.std.specs.Prelude.{List};
    ghost use Rattle.sasi_manifest.specs.declared.edit.Edit.{Edit};

    ghost Value = { List Edit };

    ghost view = { λ a. a.items.items };
}

impl EditList {
    /// No edits.
    pub fn new(alloc: Global) -> EditList
        ensures { result ≡ [] }
    {
        EditList {
            items: Vec::new(alloc),
        }
    }

    /// The edits, in order.
    pub fn as_slice(&self) -> &[Edit]
        ensures { result.now ≡ self.now }
    {
        &self.items
    }

    /// Adds an edit at the end.
    pub fn push(&mut self, edit: Edit) -> Result<(), AllocError>
        ensures ok { OnOk result (self.new ≡ self.old ++ edit ∷ []) }
        ensures err { OnErr result (self.new ≡ self.old) }
    {
        self.items.push(edit)?;
        Ok(())
    }

    /// The length of the payload of their record, or `u64::MAX` where it is longer.
    pub fn length(&self) -> u64
        ensures { result ≡ min (length (encoded self.now)) (2 ^ 64 - 1) }
    {
        edits_size(&self.items)
    }
}
