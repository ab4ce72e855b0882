// What a store has in memory.
ghost use Rattle.std.specs.Prelude.{◌≡◌, [], map, IfOk, OnOk};
ghost use Rattle.sasi_layout.specs.Classes.{KnowsClasses};
ghost use Rattle.sasi_manifest.specs.Naming.{AreApart};
ghost use Rattle.sasi_recover.specs.OpenedFolder.{opened_store};
ghost use Rattle.sasi_recover.specs.ReplayState.{AreMaps};
ghost use Rattle.sasi_schema.specs.Defined.{definition};
ghost use Rattle.sasi_schema.specs.Numbers.{RisesFrom};
ghost use Rattle.sasi_tables.specs.Held.{AreMapped, CanIndexTables, held_of, opened_held, wanted_rows};
ghost use Rattle.sasi_tables.specs.TablesView.{IsOfParts, memory_of};

use crate::table_maps::{TableMaps, add_table};
use sasi_analyzers::Kit;
use sasi_commitlog::Log;
use sasi_manifest::{ListedTable, Manifest};
use sasi_memindex::MapBook;
use sasi_recover::{MapList, Numbers, Opened};
use sasi_schema::Schema;
use std::alloc::{AllocError, Global};

/// What a store has in memory of its folder: the definitions of the tables, with a memtable for each, the manifest that counts,
/// and the last segment of the commit log.
#[derive(Drop)]
pub struct Parts {
    pub alloc: Global,
    pub schema: Schema,
    pub manifest: Manifest,
    pub log: Log,
    /// The tables, in order.
    pub tables: Vec<TableMaps>,
    /// Their maps.
    pub maps: MapBook,
    /// The last used number of a map.
    pub last_map: u64,
    /// The last used numbers.
    pub numbers: Numbers,
    /// The largest timestamp of the state.
    pub max_timestamp: u64,
}

/// What a store has of an opened folder.
pub fn parts_of(alloc: Global, kit: &mut Kit, opened: Opened) -> Result<Parts, AllocError>
    requires maps { AreMaps opened.manifest.listing opened.tables.items }
    requires classes { KnowsClasses (map (λ b. kind (b.vtable, b.value)) kit.old.objects.items) (opened_store opened) }
    ensures memory { IfOk result (λ parts. memory_of parts ≡ opened_store opened) }
    ensures parts { IfOk result IsOfParts }
    ensures kinds { map (λ b. kind (b.vtable, b.value)) kit.new.objects.items ≡ map (λ b. kind (b.vtable, b.value)) kit.old.objects.items }
{
    let all = opened.tables;
    let listed = opened.manifest.listing().tables.as_slice();
    let schema = schema_of(alloc, listed)?;
    let mut tables = Vec::new(alloc);
    let mut maps = MapBook::new(alloc);
    let mut last_map = 0;
    add_tables(
        alloc,
        &mut tables,
        &mut maps,
        &mut last_map,
        kit,
        all,
        listed,
    )?;
    Ok(Parts {
        alloc,
        schema,
        manifest: opened.manifest,
        log: opened.log,
        tables,
        maps,
        last_map,
        numbers: opened.numbers,
        max_timestamp: opened.greatest,
    })
}

// Adds the tables of an opened folder, each with its memtable and the indexes that are listed for it.
fn add_tables(
    alloc: Global,
    tables: &mut Vec<TableMaps>,
    maps: &mut MapBook,
    last: &mut u64,
    kit: &mut Kit,
    all: MapList,
    listed: &[ListedTable],
) -> Result<(), AllocError>
    requires none { tables.old.items ≡ [] }
    requires mapped { AreMapped maps.old last.old [] [] }
    requires can { CanIndexTables (map (λ b. kind (b.vtable, b.value)) kit.old.objects.items) listed.now all.items }
    ensures mapped { OnOk result (AreMapped maps.new last.new (wanted_rows listed.now) tables.new.items) }
    ensures held { OnOk result (held_of maps.new tables.new.items ≡ map opened_held all.items) }
    ensures kinds { map (λ b. kind (b.vtable, b.value)) kit.new.objects.items ≡ map (λ b. kind (b.vtable, b.value)) kit.old.objects.items }
{
    for table in all {
        let defs = listed[tables.len()].table.indexes.as_slice();
        add_table(alloc, tables, maps, last, kit, table, defs)?;
    }
    Ok(())
}

// The definitions of listed tables.
fn schema_of(alloc: Global, tables: &[ListedTable]) -> Result<Schema, AllocError>
    requires numbers { RisesFrom 1 (map (λ t. t.table.number) tables.now) }
    requires apart { AreApart [] (map (λ t. t.table.name) tables.now) }
    ensures { IfOk result (λ schema. schema.definitions ≡ map (λ t. definition t.table) tables.now) }
{
    let mut schema = Schema::new(alloc);
    for listed in tables {
        schema.restore_table(listed.table.copy(alloc)?)?;
    }
    Ok(schema)
}
