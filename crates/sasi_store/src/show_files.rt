// SHOW FILES.
ghost use Rattle.std.specs.Prelude.{◌≡◌, ◌++◌, IfOk, OnOk};
ghost use Rattle.sasi_layout.specs.Layout.{Layout, listing_of};
ghost use Rattle.sasi_layout.specs.FileNames.{file_names};
ghost use Rattle.sasi_model.specs.Lines.{files_lines, line};
ghost use Rattle.sasi_print.specs.Files.{file_text};
ghost use Rattle.sasi_segments.specs.Sorting.{sort};
ghost use Rattle.sasi_store.specs.Cursors.{view_names_out};
ghost use Rattle.sasi_views.specs.Books.{count_of};
ghost use Rattle.sasi_views.specs.Parts.{names_of, view_names};
ghost use Rattle.sasi_views.specs.declared.component.Component.TheVariants as component;
ghost use Rattle.sasi_store.specs.ToldFiles.{built_by, built_of, counted_texts, file_cmp, in_state, once, sorted_told, state_rank, told_unsorted};

use crate::session_state::SessionState;
use sasi_host::FileName;
use sasi_listing::{compare_told, listed_names, push_parts};
use sasi_machine::Reply;
use sasi_print::{FileState, file_count, file_line};
use sasi_tables::Parts;
use sasi_tasks::RunningTask;
use sasi_views::{Component, Part, ViewBook};
use std::alloc::{AllocError, Global};
use std::cmp::Ordering;

/// A data or index file, and where it stands.
#[derive(Clone, Copy, Debug)]
pub struct ToldFile {
    pub name: FileName,
    pub state: FileState,
}

/// Prints a line for each data and index file that is current, that a cursor holds or that a task writes, with how many views list it, and their
/// number. It makes no call on the host.
pub fn show_files(
    parts: &Parts,
    session: &SessionState,
    reply: &mut Reply,
) -> Result<(), AllocError>
    ensures { OnOk result ((l : Layout) → parts.now.manifest.listing ≡ listing_of l → reply.new ≡ reply.old ++ files_lines (counted_texts session.now.views (sorted_told (file_names l) (view_names_out session.now) (built_of session.now.tasks.items)))) }
{
    let mut told = unsorted(parts, session)?;
    sort_told(&mut told);
    leave_once(&mut told);
    print_files(&told, &session.views, reply)
}

// The files that are current, those that cursors hold and those that tasks write, one after another.
fn unsorted(parts: &Parts, session: &SessionState) -> Result<Vec<ToldFile>, AllocError>
    ensures { IfOk result (λ told. (l : Layout) → parts.now.manifest.listing ≡ listing_of l → told.items ≡ told_unsorted (file_names l) (view_names_out session.now) (built_of session.now.tasks.items)) }
{
    let current = listed_names(parts.alloc, &parts.manifest.listing().tables)?;
    let held = held_names(parts.alloc, session)?;
    let built = built_names(parts.alloc, &session.tasks)?;
    let mut told = Vec::new(parts.alloc);
    add(&mut told, &current, FileState::Current)?;
    add(&mut told, &held, FileState::Obsolete)?;
    add(&mut told, &built, FileState::Building)?;
    Ok(told)
}

// Adds the files with these names, which stand there.
fn add(told: &mut Vec<ToldFile>, names: &[FileName], state: FileState) -> Result<(), AllocError>
    ensures { OnOk result (told.new.items ≡ told.old.items ++ in_state state names.now) }
{
    for name in names {
        told.push(ToldFile { name: *name, state })?;
    }
    Ok(())
}

// Sorts files into the order in which they are told.
fn sort_told(told: &mut Vec<ToldFile>)
    ensures { told.new.items ≡ sort file_cmp told.old.items }
{
    told.sort_unstable_by(|a, b| compare(a, b));
}

// Leaves the first of those of one name that stand one behind the other.
fn leave_once(told: &mut Vec<ToldFile>)
    ensures { told.new.items ≡ once told.old.items }
{
    told.dedup_by_key(|file| file.name);
}

// Compares two files by the order in which they are told, and those of one name by where they stand.
fn compare(a: &ToldFile, b: &ToldFile) -> Ordering
    ensures { result ≡ file_cmp a.now b.now }
{
    let names = compare_told(&a.name, &b.name);
    let states = rank(a.state).cmp(&rank(b.state));
    names.then(states)
}

// Current files come before obsolete ones, and those before files that are built.
fn rank(state: FileState) -> u8
    ensures { result ≡ state_rank state }
{
    match state {
        FileState::Current => 0,
        FileState::Obsolete => 1,
        FileState::Building => 2,
    }
}

// The names of the files that the open cursors hold.
fn held_names(alloc: Global, session: &SessionState) -> Result<Vec<FileName>, AllocError>
    ensures { IfOk result (λ names. names.items ≡ view_names_out session.now) }
{
    let mut names = Vec::new(alloc);
    for cursor in session.cursors.values() {
        push_view(&mut names, cursor.rows.view().parts().as_slice())?;
    }
    Ok(names)
}

// Adds the names of the files of a view.
fn push_view(names: &mut Vec<FileName>, view: &[Part]) -> Result<(), AllocError>
    ensures { OnOk result (names.new.items ≡ names.old.items ++ view_names view.now) }
{
    for part in view {
        push_part(names, part)?;
    }
    Ok(())
}

// Adds the names of the files of a part.
fn push_part(names: &mut Vec<FileName>, part: &Part) -> Result<(), AllocError>
    ensures { OnOk result (names.new.items ≡ names.old.items ++ names_of part.now) }
{
    let Part::File { number, indexes } = part else {
        return Ok(());
    };
    names.push(FileName::data(*number))?;
    push_parts(names, *number, indexes.as_slice())
}

// The names of the files that tasks write.
fn built_names(alloc: Global, tasks: &[RunningTask]) -> Result<Vec<FileName>, AllocError>
    ensures { IfOk result (λ names. names.items ≡ built_of tasks.now) }
{
    let mut names = Vec::new(alloc);
    for running in tasks {
        push_built(&mut names, running)?;
    }
    Ok(names)
}

// Adds the name of the file that a task writes, if it has done a unit.
fn push_built(names: &mut Vec<FileName>, running: &RunningTask) -> Result<(), AllocError>
    ensures { OnOk result (names.new.items ≡ names.old.items ++ built_by running.now.task.compaction.number running.now.task.output) }
{
    let Some(number) = running.task.output() else {
        return Ok(());
    };
    names.push(FileName::data(number))?;
    Ok(())
}

// Prints the lines of these files, and their number.
fn print_files(files: &[ToldFile], views: &ViewBook, reply: &mut Reply) -> Result<(), AllocError>
    ensures { OnOk result (reply.new ≡ reply.old ++ files_lines (counted_texts views.now files.now)) }
{
    for file in files {
        print_line(file, views, reply)?;
    }
    file_count(reply, files.len() as u64)
}

// Prints the line of a file.
fn print_line(file: &ToldFile, views: &ViewBook, reply: &mut Reply) -> Result<(), AllocError>
    ensures { OnOk result (reply.new ≡ reply.old ++ line (file_text file.now.name file.now.state (count_of views.now (component.File file.now.name)))) }
{
    let pinned = views.count(&Component::File(file.name));
    file_line(reply, file.name, file.state, pinned)
}
