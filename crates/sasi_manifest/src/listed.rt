// The tables that a manifest lists.
ghost use Rattle.std.specs.Prelude.{◌≡◌, ◌++◌, ◌∷◌, ◌<◌, ◌≤◌, ◌+◌, [], length, map, IfOk, OnOk, OnErr};
ghost use Rattle.sasi_schema.specs.Defined.{definition, numbers_of};
ghost use Rattle.sasi_schema.specs.Numbers.{RisesFrom};
ghost use Rattle.sasi_manifest.specs.Naming.{AreApart, IsFree};

use crate::files::{ListedFile, ListedFiles};
use crate::index_list::{is_index_listed, is_index_named, is_index_of, largest_index};
use crate::table_list::{
    are_within, copies, define_at, files_at, is_file_listed, is_file_of, is_listed, replace_at,
    table_at,
};
use sasi_host::{DataNumber, SegmentNumber};
use sasi_schema::Table;
use sasi_types::{IndexDef, IndexNumber, TableNumber};
use std::alloc::{AllocError, Global};
use std::marker::Model;

/// A table that a manifest lists.
#[derive(Drop)]
pub struct ListedTable {
    pub table: Table,
    /// The first segment of the log that can have mutations of the table.
    pub since: SegmentNumber,
    /// Its data files, rising by number.
    pub files: ListedFiles,
}

/// The tables that a manifest lists, numbered from 1 in their order.
#[derive(Drop)]
pub struct ListedTables {
    items: Vec<ListedTable>,
}

impl Model for ListedTables {
    ghost use Rattle.std.specs.Prelude.{List, [], map};
    ghost use Rattle.sasi_manifest.specs.ListedDefinition.{ListedDefinition, listed_code};
    ghost use Rattle.sasi_manifest.specs.ListedTables.{listed, IsInOrder};
    ghost use Rattle.std.specs.Coded.{coded_list};

    ghost Value = { List ListedDefinition };

    ghost coded = { coded_list listed_code };

    ghost view = { λ a. map listed a.items.items };

    ghost invariant = { λ a. IsInOrder a.items.items };
}

impl ListedTables {
    ghost use Rattle.std.specs.List.{list_any};
    ghost use Rattle.sasi_model.specs.Statements.{same};
    ghost use Rattle.sasi_schema.specs.IndexFacts.{IsIndexIn};
    ghost use Rattle.sasi_manifest.specs.ListedTables.{listed};
    ghost use Rattle.sasi_manifest.specs.Abbreviations.{listed_names};
    ghost use Rattle.sasi_manifest.specs.Edits.{are_within, definition_at, files_of, index_names, index_numbers, numbers_at};
    ghost use Rattle.sasi_manifest.specs.ListedFiles.{has_file, is_among};
    ghost use Rattle.sasi_manifest.specs.Listings.{at_number, largest_index, listed_definitions, listed_with_index, replaced};

    /// No tables.
    pub fn new(alloc: Global) -> ListedTables
        ensures { result ≡ [] }
    {
        ListedTables {
            items: Vec::new(alloc),
        }
    }

    /// How many there are.
    pub fn len(&self) -> usize
        ensures count { result ≡ length self.now }
        ensures few { result ≤ 256 }
    {
        self.items.len()
    }

    /// Whether one of them has the name.
    pub fn has(&self, name: &[u8]) -> bool
        ensures { result ≡ list_any (same name.now) (listed_names self.now) }
    {
        is_listed(name, &self.items)
    }

    /// Whether one of their files has the number.
    pub fn has_file(&self, number: DataNumber) -> bool
        ensures { result ≡ list_any (λ t. has_file t.files number) self.now }
    {
        is_file_listed(number, &self.items)
    }

    /// Whether a file of the table with this number has the number.
    pub fn has_file_of(&self, table: TableNumber, number: DataNumber) -> bool
        ensures { result ≡ has_file (files_of self.now table) number }
    {
        is_file_of(&self.items, table, number)
    }

    /// The files of the table with this number, from 1 on; none where there is no such table.
    pub fn files_of(&self, table: TableNumber) -> &[ListedFile]
        ensures { result.now ≡ files_of self.now table }
    {
        files_at(&self.items, table)
    }

    /// The table with this number, from 1 on.
    pub fn table(&self, table: TableNumber) -> &Table
        requires some { 0 < table }
        requires within { table ≤ length self.now }
        ensures { definition result.now ≡ definition_at (listed_definitions self.now) table }
    {
        table_at(&self.items, table)
    }

    /// Whether an index of one of the tables has the number.
    pub fn has_index(&self, number: IndexNumber) -> bool
        ensures { result ≡ is_among (index_numbers self.now) number }
    {
        is_index_listed(number, &self.items)
    }

    /// Whether an index of the table with this number has the number.
    pub fn has_index_of(&self, table: TableNumber, number: IndexNumber) -> bool
        ensures { result ≡ is_among (numbers_at self.now table) number }
    {
        is_index_of(&self.items, table, number)
    }

    /// Whether an index of one of the tables has the name.
    pub fn has_index_name(&self, name: &[u8]) -> bool
        ensures { result ≡ list_any (same name.now) (index_names (listed_definitions self.now)) }
    {
        is_index_named(name, &self.items)
    }

    /// The largest number of an index, 0 where there is none.
    pub fn largest_index(&self) -> IndexNumber
        ensures { result ≡ largest_index self.now }
    {
        largest_index(&self.items)
    }

    /// Whether no table but this one begins after the segment.
    pub fn are_within(&self, table: TableNumber, last: SegmentNumber) -> bool
        ensures { result ≡ are_within last table 1 self.now }
    {
        are_within(&self.items, table, last)
    }

    /// Puts files of a table in the place of others, and changes its first segment.
    pub fn replace(
        &mut self,
        alloc: Global,
        table: TableNumber,
        removed: &[DataNumber],
        added: &[ListedFile],
        since: SegmentNumber,
    ) -> Result<(), AllocError>
        requires some { 0 < table }
        requires within { table ≤ length self.old }
        ensures ok { OnOk result (self.new ≡ at_number 1 table (replaced removed.now added.now since) self.old) }
        ensures err { OnErr result (self.new ≡ self.old) }
    {
        replace_at(alloc, &mut self.items, table, removed, added, since)
    }

    /// Adds an index behind the others of its table.
    pub fn define(&mut self, def: IndexDef) -> Result<(), AllocError>
        requires { IsIndexIn (listed_definitions self.old) def }
        ensures ok { OnOk result (self.new ≡ at_number 1 def.table (listed_with_index def) self.old) }
        ensures err { OnErr result (self.new ≡ self.old) }
    {
        define_at(&mut self.items, def)
    }

    /// Adds a table at the end.
    pub fn push(&mut self, table: Table, since: SegmentNumber) -> Result<(), AllocError>
        requires number { table.number ≡ length self.old + 1 }
        requires few { length self.old < 256 }
        requires free { IsFree (listed_names self.old) table.name }
        ensures ok { OnOk result (self.new ≡ self.old ++ record { definition = definition table; numbers = numbers_of table; since = since; files = [] } ∷ []) }
        ensures err { OnErr result (self.new ≡ self.old) }
    {
        let files = ListedFiles::new(*self.items.allocator());
        self.items.push(ListedTable {
            table,
            since,
            files,
        })?;
        Ok(())
    }

    /// The tables, in order.
    pub fn as_slice(&self) -> &[ListedTable]
        ensures tables { map listed result.now ≡ self.now }
        ensures numbers { RisesFrom 1 (map (λ t. t.table.number) result.now) }
        ensures apart { AreApart [] (map (λ t. t.table.name) result.now) }
        ensures few { length result.now ≤ 256 }
    {
        &self.items
    }

    /// A copy of the tables.
    pub fn copy(&self, alloc: Global) -> Result<ListedTables, AllocError>
        ensures { IfOk result (λ copy. copy ≡ self.now) }
    {
        let items = copies(alloc, &self.items)?;
        Ok(ListedTables { items })
    }
}
