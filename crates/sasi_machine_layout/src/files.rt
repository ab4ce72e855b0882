// The lines of SHOW FILES.
ghost use Rattle.std.specs.Prelude.{◌≡◌, ◌++◌, map, OnOk};
ghost use Rattle.sasi_layout.specs.FileNames.{file_names, names_listed};
ghost use Rattle.sasi_manifest.specs.ListedFiles.{names_of};
ghost use Rattle.std.specs.List.{flat_map};
ghost use Rattle.sasi_model.specs.Lines.{files_lines, line};
ghost use Rattle.sasi_print.specs.Files.{file_text};
ghost use Rattle.sasi_print.specs.declared.file_lines.FileState.TheVariants.{Current};
ghost use Rattle.sasi_machine_layout.specs.Contents.{IsContents, layout_of};

use crate::contents::{Contents, FileContents, TableContents};
use sasi_host::FileName;
use sasi_listing::{push_file, sort_names};
use sasi_machine::Reply;
use sasi_print::{FileState, file_count, file_line};
use std::alloc::AllocError;

/// Adds the lines of all files, as SHOW FILES tells them while no cursor holds one.
pub fn files(contents: &Contents, reply: &mut Reply) -> Result<(), AllocError>
    requires { IsContents contents.now }
    ensures { OnOk result (reply.new ≡ reply.old ++ files_lines (map (λ name. file_text name Current 0) (file_names (layout_of contents.now)))) }
{
    let mut names = Vec::new(contents.alloc);
    push_tables(&mut names, &contents.tables)?;
    sort_names(&mut names);
    push_lines(reply, &names)?;
    file_count(reply, names.len() as u64)
}

// Adds the names of the files of these tables.
fn push_tables(names: &mut Vec<FileName>, tables: &[TableContents]) -> Result<(), AllocError>
    ensures { OnOk result (names.new.items ≡ names.old.items ++ names_listed (map (λ t. map (λ f. f.listed) t.files.items) tables.now)) }
{
    for table in tables {
        push_files(names, &table.files)?;
    }
    Ok(())
}

// Adds the names of these data files, and of the index files that go with them.
fn push_files(names: &mut Vec<FileName>, files: &[FileContents]) -> Result<(), AllocError>
    ensures { OnOk result (names.new.items ≡ names.old.items ++ flat_map names_of (map (λ f. f.listed) files.now)) }
{
    for file in files {
        push_file(names, &file.listed)?;
    }
    Ok(())
}

// Adds a line for each file.
fn push_lines(reply: &mut Reply, names: &[FileName]) -> Result<(), AllocError>
    ensures { OnOk result (reply.new ≡ reply.old ++ flat_map line (map (λ name. file_text name Current 0) names.now)) }
{
    for name in names {
        file_line(reply, *name, FileState::Current, 0)?;
    }
    Ok(())
}
