// New indexes in a record.
ghost use Rattle.std.specs.Prelude.{◌≡◌, ◌<◌, ◌≤◌, length, not, nat_eq, IfOk};
ghost use Rattle.sasi_model.specs.Abbreviations.{kind_of};
ghost use Rattle.sasi_model.specs.Indexes.{is_text, mode_fits};
ghost use Rattle.sasi_schema.specs.Defined.{definition};
ghost use Rattle.sasi_formats.specs.Reader.{read};
ghost use Rattle.sasi_formats.specs.Gives.{Gives};
ghost use Rattle.sasi_manifest.specs.Abbreviations.{placed_index, table_number};
ghost use Rattle.sasi_manifest.specs.Edits.{analysis, any_mode, create_index, definition_at, folding, index_names, index_number, index_numbers, indexed_column, indexing, is_open_column, is_rule_code, mode, named_index, new_index_def, on_column, rule_byte};
ghost use Rattle.sasi_manifest.specs.ListedFiles.{is_among};
ghost use Rattle.sasi_manifest.specs.Listings.{listed_definitions};

use crate::Edit;
use crate::column_types::{is_indexed, type_at};
use crate::listed::ListedTables;
use crate::text::read_index_name;
use sasi_fields::FieldReader;
use sasi_formats::{
    FieldStart, FormatFault, read_flag, read_u8, read_u16_in_range, read_u32_in_range,
};
use sasi_host::FormatRule;
use sasi_schema::Table;
use sasi_types::{ColumnType, IndexDef, IndexNumber, Mode, Name, Rule, TableNumber};
use std::alloc::Global;

// A rule, and whether letters are folded, which means nothing without one.
type RuleFields = (Option<Rule>, bool);

// The column of an index, and how it is indexed.
type OnColumn = (u16, (Mode, RuleFields));

/// Reads the fields of a new index of a listed table.
#[tactic(auto, unfolding(crate::specs::Edits::create_index))]
pub fn read_create_index(
    alloc: Global,
    reader: &mut FieldReader,
    tables: &ListedTables,
) -> Result<Edit, FormatFault>
    ensures { Gives (read (create_index tables.now) reader.old) result reader.new }
{
    let (def, fold) = read_def(alloc, reader, tables)?;
    Ok(Edit::CreateIndex { def, fold })
}

// Reads the definition of an index, whose number and name are new, and whether letters are folded.
fn read_def(
    alloc: Global,
    reader: &mut FieldReader,
    tables: &ListedTables,
) -> Result<(IndexDef, bool), FormatFault>
    ensures { Gives (read (new_index_def tables.now) reader.old) result reader.new }
{
    let number = read_number(reader, tables)?;
    let (table, (name, (column, (mode, (rule, fold))))) = read_placed(alloc, reader, tables)?;
    let kind = type_at(tables.table(table), column);
    let def = IndexDef {
        number,
        table,
        name,
        column,
        kind,
        mode,
        rule,
    };
    Ok((def, fold))
}

// Reads a number that no index has.
fn read_number(reader: &mut FieldReader, tables: &ListedTables) -> Result<IndexNumber, FormatFault>
    ensures { Gives (read (index_number (index_numbers tables.now)) reader.old) result reader.new }
{
    let start = FieldStart::of(reader);
    let number = read_u32_in_range(reader, 1, u32::MAX)?;
    if tables.has_index(number) {
        return Err(start.broken(FormatRule::Number, 4));
    }
    Ok(number)
}

// Reads the number of a table, and the index that is new on it.
fn read_placed(
    alloc: Global,
    reader: &mut FieldReader,
    tables: &ListedTables,
) -> Result<(TableNumber, (Name, OnColumn)), FormatFault>
    ensures placed { Gives (read (placed_index tables.now) reader.old) result reader.new }
    ensures some { IfOk result (λ f. 0 < f.0) }
    ensures within { IfOk result (λ f. f.0 ≤ length tables.now) }
{
    let table = read_table(reader, tables)?;
    let rest = read_named_of(alloc, reader, tables, table)?;
    Ok((table, rest))
}

// Reads the name of an index of the table with this number, and the rest.
fn read_named_of(
    alloc: Global,
    reader: &mut FieldReader,
    tables: &ListedTables,
    table: TableNumber,
) -> Result<(Name, OnColumn), FormatFault>
    requires some { 0 < table }
    requires within { table ≤ length tables.now }
    ensures { Gives (read (named_index (index_names (listed_definitions tables.now)) (definition_at (listed_definitions tables.now) table)) reader.old) result reader.new }
{
    read_named(alloc, reader, tables, tables.table(table))
}

// Reads the number of a table.
fn read_table(reader: &mut FieldReader, tables: &ListedTables) -> Result<TableNumber, FormatFault>
    ensures number { Gives (read (table_number tables.now) reader.old) result reader.new }
    ensures some { IfOk result (λ table. 0 < table) }
    ensures within { IfOk result (λ table. table ≤ length tables.now) }
{
    read_u32_in_range(reader, 1, tables.len() as u32)
}

// Reads the name of an index of this table, and the rest.
fn read_named(
    alloc: Global,
    reader: &mut FieldReader,
    tables: &ListedTables,
    own: &Table,
) -> Result<(Name, OnColumn), FormatFault>
    ensures { Gives (read (named_index (index_names (listed_definitions tables.now)) (definition own.now)) reader.old) result reader.new }
{
    let name = read_index_name(alloc, reader, tables)?;
    let rest = read_on_column(reader, own)?;
    Ok((name, rest))
}

// Reads a column of this table, and how it is indexed.
fn read_on_column(reader: &mut FieldReader, own: &Table) -> Result<OnColumn, FormatFault>
    ensures { Gives (read (on_column (definition own.now)) reader.old) result reader.new }
{
    let column = read_column(reader, own)?;
    let indexing = read_indexing_of(reader, own, column)?;
    Ok((column, indexing))
}

// Reads how a column of this table is indexed.
fn read_indexing_of(
    reader: &mut FieldReader,
    own: &Table,
    column: u16,
) -> Result<(Mode, RuleFields), FormatFault>
    ensures { Gives (read (indexing (kind_of (definition own.now) column)) reader.old) result reader.new }
{
    read_indexing(reader, type_at(own, column))
}

// Reads the number of a column that can have an index, and has none.
fn read_column(reader: &mut FieldReader, own: &Table) -> Result<u16, FormatFault>
    ensures { Gives (read (indexed_column (definition own.now)) reader.old) result reader.new }
{
    let start = FieldStart::of(reader);
    let regular = own.columns.as_slice().len() as u16 - 1;
    let column = read_u16_in_range(reader, 1, regular)?;
    if !is_open(own, column) {
        return Err(start.broken(FormatRule::Number, 2));
    }
    Ok(column)
}

// Whether the column can have an index, and has none.
fn is_open(own: &Table, column: u16) -> bool
    ensures { result ≡ is_open_column (definition own.now) column }
{
    type_at(own, column) != ColumnType::Uuid && !is_indexed(own.indexes.as_slice(), column)
}

// Reads how a column of this type is indexed.
fn read_indexing(
    reader: &mut FieldReader,
    kind: ColumnType,
) -> Result<(Mode, RuleFields), FormatFault>
    ensures { Gives (read (indexing kind) reader.old) result reader.new }
{
    let mode = read_mode(reader, kind)?;
    let rule = read_rule(reader, kind)?;
    Ok((mode, rule))
}

// Reads a mode that an index on a column of this type can have.
fn read_mode(reader: &mut FieldReader, kind: ColumnType) -> Result<Mode, FormatFault>
    ensures { Gives (read (mode kind) reader.old) result reader.new }
{
    let start = FieldStart::of(reader);
    let mode = read_any_mode(reader)?;
    if !mode_fits(mode, kind) {
        return Err(start.broken(FormatRule::Number, 1));
    }
    Ok(mode)
}

// Reads the byte that names a mode.
fn read_any_mode(reader: &mut FieldReader) -> Result<Mode, FormatFault>
    ensures { Gives (read any_mode reader.old) result reader.new }
{
    let start = FieldStart::of(reader);
    match read_u8(reader)? {
        0 => Ok(Mode::Prefix),
        1 => Ok(Mode::Contains),
        2 => Ok(Mode::Sparse),
        _ => Err(start.broken(FormatRule::Number, 1)),
    }
}

// Whether an index on a column of this type can have the mode.
fn mode_fits(mode: Mode, kind: ColumnType) -> bool
    ensures { result ≡ mode_fits mode kind }
{
    match kind {
        ColumnType::Text => mode != Mode::Sparse,
        ColumnType::Int | ColumnType::BigInt => mode != Mode::Contains,
        ColumnType::Uuid => false,
    }
}

// Reads how terms are made of a value of this type.
fn read_rule(reader: &mut FieldReader, kind: ColumnType) -> Result<RuleFields, FormatFault>
    ensures { Gives (read (analysis kind) reader.old) result reader.new }
{
    let code = read_rule_byte(reader, kind)?;
    read_folding(reader, code)
}

// Reads the byte of a rule for values of this type.
fn read_rule_byte(reader: &mut FieldReader, kind: ColumnType) -> Result<u8, FormatFault>
    ensures { Gives (read (rule_byte kind) reader.old) result reader.new }
{
    let start = FieldStart::of(reader);
    let code = read_u8(reader)?;
    if !is_rule_code(kind, code) {
        return Err(start.broken(FormatRule::Number, 1));
    }
    Ok(code)
}

// Whether a rule for values of this type has the byte.
fn is_rule_code(kind: ColumnType, code: u8) -> bool
    ensures { result ≡ is_rule_code (is_text kind) code }
{
    match kind {
        ColumnType::Text => code == 1 || code == 2,
        _ => code == 0,
    }
}

// Reads whether letters are folded, after the byte of a rule.
fn read_folding(reader: &mut FieldReader, code: u8) -> Result<RuleFields, FormatFault>
    ensures { Gives (read (folding code) reader.old) result reader.new }
{
    match code {
        0 => {
            let fold = read_flag(reader)?;
            Ok((None, fold))
        }
        1 => {
            let fold = read_flag(reader)?;
            Ok((Some(Rule::Whole { fold }), fold))
        }
        _ => {
            let fold = read_flag(reader)?;
            Ok((Some(Rule::Words { fold }), fold))
        }
    }
}
