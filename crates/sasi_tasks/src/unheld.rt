// Deletes files that nothing needs any more.
ghost use Rattle.std.specs.Prelude.{◌≡◌, ◌⊎◌, ◌∷◌, ℕ, [], false, map, true, IfOk, OnOk};
ghost use Rattle.sasi_host.specs.Disk.{Changes, IsFolderSynced, Within};
ghost use Rattle.sasi_host.specs.View.{DiskCauses, IsThere};
ghost use Rattle.sasi_layout.specs.NumbersInOrder.{Rising};
ghost use Rattle.sasi_manifest.specs.ListedFiles.{has_file, index_name};
ghost use Rattle.sasi_tasks.specs.Unheld.{AreGone, AreOnce, AreThere, AreUnchosen, is_counted, is_left, is_one_of};
ghost use Rattle.sasi_views.specs.Parts.{names_of, view_names};

use sasi_host::{DataNumber, Failed, FileName, Host};
use sasi_manifest::{ListedFile, PartNumber};
use sasi_views::{Component, Part, ViewBook};

/// Deletes the files with these names that no view lists which is out, and then syncs the folder. Where there are none, it makes no call.
pub fn delete_unheld<H: Host>(
    host: &mut H,
    views: &ViewBook,
    names: &[FileName],
) -> Result<(), Failed>
    requires there { AreThere (is_counted views.now 0) (H.view host.old) names.now }
    requires once { AreOnce names.now }
    ensures gone { OnOk result (AreGone (is_counted views.now 0) (H.view host.new) names.now) }
    ensures idle { AreUnchosen (is_counted views.now 0) names.now → host.new ≡ host.old }
    ensures changes { Changes (Within (is_one_of (is_counted views.now 0) names.now)) (H.view host.old) (H.view host.new) }
    ensures synced { OnOk result ((host.new ≡ host.old) ⊎ IsFolderSynced (H.view host.new)) }
    ensures causes { DiskCauses (H.view host.old) (H.view host.new) result }
{
    let mut deleted = false;
    for name in names {
        deleted |= delete_counted(host, views, *name, 0)?;
    }
    if !deleted {
        return Ok(());
    }
    host.sync_folder()
}

/// Deletes the files of a view that is given back next: those that no other view lists which is out, and that its table, which lists these
/// files, has no more. Then it syncs the folder. Where there are none, it makes no call.
pub fn delete_left<H: Host>(
    host: &mut H,
    views: &ViewBook,
    files: &[ListedFile],
    view: &[Part],
) -> Result<(), Failed>
    requires rising { (high : ℕ) × Rising 0 high files.now }
    requires there { AreThere (is_left views.now files.now) (H.view host.old) (view_names view.now) }
    requires once { AreOnce (view_names view.now) }
    ensures gone { OnOk result (AreGone (is_left views.now files.now) (H.view host.new) (view_names view.now)) }
    ensures idle { AreUnchosen (is_left views.now files.now) (view_names view.now) → host.new ≡ host.old }
    ensures changes { Changes (Within (is_one_of (is_left views.now files.now) (view_names view.now))) (H.view host.old) (H.view host.new) }
    ensures synced { OnOk result ((host.new ≡ host.old) ⊎ IsFolderSynced (H.view host.new)) }
    ensures causes { DiskCauses (H.view host.old) (H.view host.new) result }
{
    let mut deleted = false;
    for part in view {
        deleted |= delete_left_of(host, views, files, part)?;
    }
    if !deleted {
        return Ok(());
    }
    host.sync_folder()
}

// Deletes those of a part, and tells whether there were some.
fn delete_left_of<H: Host>(
    host: &mut H,
    views: &ViewBook,
    files: &[ListedFile],
    part: &Part,
) -> Result<bool, Failed>
    requires rising { (high : ℕ) × Rising 0 high files.now }
    requires there { AreThere (is_left views.now files.now) (H.view host.old) (names_of part.now) }
    requires once { AreOnce (names_of part.now) }
    ensures gone { OnOk result (AreGone (is_left views.now files.now) (H.view host.new) (names_of part.now)) }
    ensures idle { AreUnchosen (is_left views.now files.now) (names_of part.now) → host.new ≡ host.old }
    ensures told { IfOk result (λ deleted. AreUnchosen (is_left views.now files.now) (names_of part.now) → deleted ≡ false) }
    ensures none { IfOk result (λ deleted. deleted ≡ false → host.new ≡ host.old) }
    ensures changes { Changes (Within (is_one_of (is_left views.now files.now) (names_of part.now))) (H.view host.old) (H.view host.new) }
    ensures causes { DiskCauses (H.view host.old) (H.view host.new) result }
{
    let Part::File { number, indexes } = part else {
        return Ok(false);
    };
    if is_listed(files, *number) {
        return Ok(false);
    }
    let data = delete_counted(host, views, FileName::data(*number), 1)?;
    let more = delete_indexes(host, views, *number, indexes.as_slice())?;
    Ok(data || more)
}

// Deletes the index files of these parts that one view alone lists which is out, and tells whether there were some.
fn delete_indexes<H: Host>(
    host: &mut H,
    views: &ViewBook,
    number: DataNumber,
    parts: &[PartNumber],
) -> Result<bool, Failed>
    requires there { AreThere (is_counted views.now 1) (H.view host.old) (map (index_name number) parts.now) }
    requires once { AreOnce (map (index_name number) parts.now) }
    ensures gone { OnOk result (AreGone (is_counted views.now 1) (H.view host.new) (map (index_name number) parts.now)) }
    ensures idle { AreUnchosen (is_counted views.now 1) (map (index_name number) parts.now) → host.new ≡ host.old }
    ensures told { IfOk result (λ deleted. AreUnchosen (is_counted views.now 1) (map (index_name number) parts.now) → deleted ≡ false) }
    ensures none { IfOk result (λ deleted. deleted ≡ false → host.new ≡ host.old) }
    ensures changes { Changes (Within (is_one_of (is_counted views.now 1) (map (index_name number) parts.now))) (H.view host.old) (H.view host.new) }
    ensures causes { DiskCauses (H.view host.old) (H.view host.new) result }
{
    let mut deleted = false;
    for part in parts {
        deleted |= delete_counted(host, views, part.file_name(number), 1)?;
    }
    Ok(deleted)
}

// Deletes a file that so many of the views list that are out, and tells whether it is one.
fn delete_counted<H: Host>(
    host: &mut H,
    views: &ViewBook,
    name: FileName,
    count: u32,
) -> Result<bool, Failed>
    requires { is_counted views.now count name ≡ true → IsThere (H.view host.old) name }
    ensures told { IfOk result (λ deleted. deleted ≡ is_counted views.now count name) }
    ensures gone { OnOk result (AreGone (is_counted views.now count) (H.view host.new) (name ∷ [])) }
    ensures idle { is_counted views.now count name ≡ false → host.new ≡ host.old }
    ensures changes { Changes (Within (is_one_of (is_counted views.now count) (name ∷ []))) (H.view host.old) (H.view host.new) }
    ensures causes { DiskCauses (H.view host.old) (H.view host.new) result }
{
    if views.count(&Component::File(name)) != count {
        return Ok(false);
    }
    host.delete(name)?;
    Ok(true)
}

// Whether a data file has this number; their numbers rise.
fn is_listed(files: &[ListedFile], number: DataNumber) -> bool
    requires { (high : ℕ) × Rising 0 high files.now }
    ensures { result ≡ has_file files.now number }
{
    files
        .binary_search_by_key(&number, |file| file.number)
        .is_ok()
}
