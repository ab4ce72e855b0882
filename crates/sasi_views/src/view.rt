// Views of a table.
ghost use Rattle.std.specs.Prelude.{◌≡◌, IfOk};
ghost use Rattle.sasi_views.specs.Parts.{components_of};

use crate::component::Component;
use crate::components;
use crate::part::PartList;
use std::alloc::{AllocError, Global};
use std::marker::Model;

/// Parts of a table that a reader goes on to read, whatever becomes of the table meanwhile. `ViewBook::take` makes one, and it stays out
/// until `ViewBook::give` takes it back, also where it is dropped.
#[derive(Drop)]
pub struct View {
    parts: PartList,
    // Those of the parts, so that to give a view back takes no memory.
    components: Vec<Component>,
}

impl Model for View {
    ghost use Rattle.std.specs.Prelude.{◌≡◌, List};
    ghost use Rattle.sasi_views.specs.declared.part.Part.{Part};
    ghost use Rattle.sasi_views.specs.Parts.{components_of};

    ghost Value = { List Part };

    ghost view = { λ a. a.parts };

    ghost invariant = { λ a. a.components.items ≡ components_of a.parts };
}

impl View {
    // The view of these parts.
    pub(crate) fn of(alloc: Global, parts: PartList) -> Result<View, AllocError>
        ensures { IfOk result (λ view. view ≡ parts) }
    {
        let components = components::components_of(alloc, parts.as_slice())?;
        Ok(View { parts, components })
    }

    /// The parts that it lists.
    pub fn parts(&self) -> &PartList
        ensures { result.now ≡ self.now }
    {
        &self.parts
    }

    // Their components.
    pub(crate) fn components(&self) -> &[Component]
        ensures { result.now ≡ components_of self.now }
    {
        &self.components
    }
}
