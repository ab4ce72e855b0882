// The effect of edits on a listing.
ghost use Rattle.std.specs.Prelude.{◌≡◌, ◌+◌, ◌<◌, ◌≤◌, ◌++◌, ◌∷◌, [], length, Some, IfOk, OnErr, OnOk};
ghost use Rattle.sasi_schema.specs.Defined.{definition, numbers_of};
ghost use Rattle.sasi_schema.specs.IndexFacts.{IsIndexIn};
ghost use Rattle.sasi_manifest.specs.Naming.{IsFree};
ghost use Rattle.sasi_manifest.specs.Edits.{AllApply, Applies};
ghost use Rattle.sasi_manifest.specs.Listings.{after, after_all, at_number, listed_definitions, listed_with_index, replaced};
ghost use Rattle.sasi_manifest.specs.Abbreviations.{listed_names, started, with_listed_table};

use crate::{Edit, ListedFile, ListedTables, Listing};
use sasi_host::{DataNumber, SegmentNumber};
use sasi_schema::Table;
use sasi_types::{IndexDef, IndexList, Partitioner, TableNumber};
use std::alloc::{AllocError, Global};

/// Applies edits one after another; a manifest has no listing before its first edit.
pub fn apply_all(
    alloc: Global,
    from: Option<Listing>,
    edits: &[Edit],
) -> Result<Option<Listing>, AllocError>
    requires { AllApply from edits.now }
    ensures { IfOk result (λ to. to ≡ after_all from edits.now) }
{
    let mut listed = from;
    for edit in edits {
        listed = Some(apply(alloc, listed, edit)?);
    }
    Ok(listed)
}

/// Applies an edit.
pub fn apply(alloc: Global, from: Option<Listing>, edit: &Edit) -> Result<Listing, AllocError>
    requires { Applies from edit.now }
    ensures { IfOk result (λ listing. Some listing ≡ after from edit.now) }
{
    match from {
        None => Ok(first(alloc, edit)),
        Some(mut listing) => {
            change(alloc, &mut listing, edit)?;
            Ok(listing)
        }
    }
}

// The listing after the first edit.
fn first(alloc: Global, edit: &Edit) -> Listing
    requires { Applies None edit.now }
    ensures { Some result ≡ after None edit.now }
{
    let Edit::Start {
        partitioner,
        floor,
        last,
    } = edit
    else {
        unreachable!();
    };
    started(alloc, *partitioner, *floor, *last)
}

/// Changes a listing by an edit that isn't the first.
pub fn change(alloc: Global, listing: &mut Listing, edit: &Edit) -> Result<(), AllocError>
    requires { Applies (Some listing.old) edit.now }
    ensures ok { OnOk result (Some listing.new ≡ after (Some listing.old) edit.now) }
    ensures err { OnErr result (listing.new ≡ listing.old) }
{
    match edit {
        Edit::Start { .. } => unreachable!(),
        Edit::CreateTable {
            number,
            name,
            columns,
            key,
            since,
        } => {
            let (name, columns) = (name.copy(alloc)?, columns.copy(alloc)?);
            let table = Table::new(*number, name, columns, *key, IndexList::new(alloc));
            add_table(listing, table, *since)
        }
        Edit::CreateIndex { def, .. } => add_index(listing, def.copy(alloc)?),
        Edit::Replace {
            table,
            removed,
            added,
            since,
            floor,
            last,
        } => {
            replace_files(
                alloc,
                listing,
                *table,
                removed.as_slice(),
                added.as_slice(),
                *since,
            )?;
            listing.floor = *floor;
            listing.last = *last;
            Ok(())
        }
    }
}

// Puts files of a table in the place of others.
fn replace_files(
    alloc: Global,
    listing: &mut Listing,
    table: TableNumber,
    removed: &[DataNumber],
    added: &[ListedFile],
    since: SegmentNumber,
) -> Result<(), AllocError>
    requires some { 0 < table }
    requires within { table ≤ length listing.old.tables }
    ensures ok { OnOk result (listing.new ≡ record listing.old { tables = at_number 1 table (replaced removed.now added.now since) listing.old.tables }) }
    ensures err { OnErr result (listing.new ≡ listing.old) }
{
    listing.tables.replace(alloc, table, removed, added, since)
}

// Defines an index on its table.
fn add_index(listing: &mut Listing, def: IndexDef) -> Result<(), AllocError>
    requires { IsIndexIn (listed_definitions listing.old.tables) def }
    ensures ok { OnOk result (listing.new ≡ record listing.old { tables = at_number 1 def.table (listed_with_index def) listing.old.tables }) }
    ensures err { OnErr result (listing.new ≡ listing.old) }
{
    listing.tables.define(def)
}

// The listing of a start: no tables, and no record yet.
fn started(
    alloc: Global,
    partitioner: Partitioner,
    floor: SegmentNumber,
    last: SegmentNumber,
) -> Listing
    ensures { result ≡ started partitioner floor last }
{
    Listing {
        partitioner,
        floor,
        last,
        records: 0,
        length: 17,
        tables: ListedTables::new(alloc),
    }
}

fn add_table(listing: &mut Listing, table: Table, since: SegmentNumber) -> Result<(), AllocError>
    requires number { table.number ≡ length listing.old.tables + 1 }
    requires few { length listing.old.tables < 256 }
    requires free { IsFree (listed_names listing.old.tables) table.name }
    ensures ok { OnOk result (listing.new ≡ with_listed_table (record { definition = definition table; numbers = numbers_of table; since = since; files = [] }) listing.old) }
    ensures err { OnErr result (listing.new ≡ listing.old) }
{
    listing.tables.push(table, since)
}
