// Names in a record.
ghost use Rattle.std.specs.Prelude.{◌≡◌};
ghost use Rattle.std.specs.List.{list_any, list_all};
ghost use Rattle.sasi_model.specs.Refusals.{names_in};
ghost use Rattle.sasi_model.specs.Statements.{same};
ghost use Rattle.sasi_model.specs.Tokens.{is_word_byte};
ghost use Rattle.sasi_formats.specs.Reader.{read};
ghost use Rattle.sasi_formats.specs.Gives.{Gives};
ghost use Rattle.sasi_manifest.specs.Edits.{index_names, name};
ghost use Rattle.sasi_manifest.specs.Abbreviations.{is_open_name, listed_names};
ghost use Rattle.sasi_manifest.specs.Listings.{listed_definitions};

use crate::ListedTables;
use sasi_fields::FieldReader;
use sasi_formats::{FormatFault, broken, read_u8_in_range, take};
use sasi_host::FormatRule;
use sasi_types::{ColumnType, Name};
use std::alloc::Global;

// The most bytes that a name has.
const NAME_LIMIT: u8 = 48;

/// Reads the name of a column, which no column before it has.
pub fn read_column_name(
    alloc: Global,
    reader: &mut FieldReader,
    columns: &[(Name, ColumnType)],
) -> Result<Name, FormatFault>
    ensures { Gives (read (name (names_in columns.now)) reader.old) result reader.new }
{
    let size = read_u8_in_range(reader, 1, NAME_LIMIT)?;
    let at = reader.offset();
    let text = take(reader, usize::from(size))?;
    if !is_open_column(text, columns) {
        return Err(broken(FormatRule::Text, at, text));
    }
    Ok(Name::new(text.to_vec(alloc)?))
}

/// Reads the name of a table, which no listed table has.
pub fn read_table_name(
    alloc: Global,
    reader: &mut FieldReader,
    tables: &ListedTables,
) -> Result<Name, FormatFault>
    ensures { Gives (read (name (listed_names tables.now)) reader.old) result reader.new }
{
    let size = read_u8_in_range(reader, 1, NAME_LIMIT)?;
    let at = reader.offset();
    let text = take(reader, usize::from(size))?;
    if !is_open_table(text, tables) {
        return Err(broken(FormatRule::Text, at, text));
    }
    Ok(Name::new(text.to_vec(alloc)?))
}

/// Reads the name of an index, which no index of a listed table has.
pub fn read_index_name(
    alloc: Global,
    reader: &mut FieldReader,
    tables: &ListedTables,
) -> Result<Name, FormatFault>
    ensures { Gives (read (name (index_names (listed_definitions tables.now))) reader.old) result reader.new }
{
    let size = read_u8_in_range(reader, 1, NAME_LIMIT)?;
    let at = reader.offset();
    let text = take(reader, usize::from(size))?;
    if !is_open_index(text, tables) {
        return Err(broken(FormatRule::Text, at, text));
    }
    Ok(Name::new(text.to_vec(alloc)?))
}

// Whether the text is a name that no column has.
fn is_open_column(text: &[u8], columns: &[(Name, ColumnType)]) -> bool
    ensures { result ≡ is_open_name (names_in columns.now) text.now }
{
    is_word(text) && !is_column(text, columns)
}

// Whether the text is a name that no table has.
fn is_open_table(text: &[u8], tables: &ListedTables) -> bool
    ensures { result ≡ is_open_name (listed_names tables.now) text.now }
{
    is_word(text) && !tables.has(text)
}

// Whether the text is a name that no index has.
fn is_open_index(text: &[u8], tables: &ListedTables) -> bool
    ensures { result ≡ is_open_name (index_names (listed_definitions tables.now)) text.now }
{
    is_word(text) && !tables.has_index_name(text)
}

fn is_column(text: &[u8], columns: &[(Name, ColumnType)]) -> bool
    ensures { result ≡ list_any (same text.now) (names_in columns.now) }
{
    for column in columns {
        if text == column.0.bytes() {
            return true;
        }
    }
    false
}

/// Whether the text is letters, digits and `_`.
pub fn is_word(text: &[u8]) -> bool
    ensures { result ≡ list_all is_word_byte text.now }
{
    text.iter().all(|byte| is_word_byte(*byte))
}

fn is_word_byte(byte: u8) -> bool
    ensures { result ≡ is_word_byte byte }
{
    byte.is_ascii_alphanumeric() || byte == b'_'
}
