// The files that are obsolete.
ghost use Rattle.std.specs.Prelude.{◌≡◌, ◌++◌, [], IfOk, OnOk};
ghost use Rattle.std.specs.BTreeMap.{IsOrdered};
ghost use Rattle.sasi_views.specs.Components.{component_cmp};
ghost use Rattle.sasi_views.specs.inside.Listed.{is_obsolete, listed_as, obsolete_files};

use crate::component::Component;
use crate::counted::Counted;
use crate::known::Known;
use crate::part::FileList;
use std::alloc::{AllocError, Global};

/// The files that are no longer current but listed by a view that is out, in order.
pub fn obsolete_files(alloc: Global, known: &Known) -> Result<FileList, AllocError>
    ensures files { IfOk result (λ files. files ≡ obsolete_files known.now.entries) }
    ensures rise { IsOrdered component_cmp known.now }
{
    let mut files = FileList::new(alloc);
    for (component, counted) in known {
        push_obsolete(&mut files, component, counted)?;
    }
    Ok(files)
}

// Adds the component if it is such a file.
fn push_obsolete(
    files: &mut FileList,
    component: &Component,
    counted: &Counted,
) -> Result<(), AllocError>
    ensures { OnOk result (files.new ≡ files.old ++ listed_as component.now (is_obsolete counted.now) []) }
{
    if let Component::File(name) = component {
        if counted.is_obsolete() {
            return files.push(*name);
        }
    }
    Ok(())
}
