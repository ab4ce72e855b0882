// The components of parts.
ghost use Rattle.std.specs.Prelude.{◌≡◌, ◌++◌, ◌∷◌, [], map, IfOk, OnOk};
ghost use Rattle.sasi_manifest.specs.ListedFiles.{index_name};
ghost use Rattle.sasi_views.specs.declared.component.Component.TheVariants as component;
ghost use Rattle.sasi_views.specs.Parts.{components_of, part_components};

use crate::component::Component;
use crate::part::Part;
use sasi_host::{DataNumber, FileName};
use sasi_manifest::PartNumber;
use std::alloc::{AllocError, Global};

/// The components of parts, one after another.
pub fn components_of(alloc: Global, parts: &[Part]) -> Result<Vec<Component>, AllocError>
    ensures { IfOk result (λ components. components.items ≡ components_of parts.now) }
{
    let mut components = Vec::new(alloc);
    for part in parts {
        push_components(&mut components, part)?;
    }
    Ok(components)
}

// Adds the components of a part.
fn push_components(components: &mut Vec<Component>, part: &Part) -> Result<(), AllocError>
    ensures { OnOk result (components.new.items ≡ components.old.items ++ part_components part.now) }
{
    match part {
        Part::File { number, indexes } => {
            components.push(Component::File(FileName::data(*number)))?;
            push_index_files(components, *number, indexes.as_slice())
        }
        Part::Map(number) => {
            components.push(Component::Map(*number))?;
            Ok(())
        }
    }
}

// Adds the index files that go with a data file.
fn push_index_files(
    components: &mut Vec<Component>,
    number: DataNumber,
    indexes: &[PartNumber],
) -> Result<(), AllocError>
    ensures { OnOk result (components.new.items ≡ components.old.items ++ map (λ p. component.File (index_name number p)) indexes.now) }
{
    for part in indexes {
        components.push(Component::File(part.file_name(number)))?;
    }
    Ok(())
}
