// The fields of statements, each added to a line with a space in front of it.
use sasi_types::{
    ColumnType, DeclaredColumns, Literal, Literals, Name, Names, Number, Options, Relation,
    Relations, Sets, Test, Text,
};
use std::alloc::{AllocError, Global};
use std::str;

/// A name.
pub fn add_name(line: &mut String, name: &[u8]) -> Result<(), AllocError> {
    write!(line, " {}", str::from_utf8(name).unwrap_or("?"))
}

/// A name after words.
pub fn add_named(line: &mut String, words: &str, name: &Name) -> Result<(), AllocError> {
    line.push_str(words)?;
    add_name(line, name.bytes())
}

/// Names after a word.
pub fn add_names(line: &mut String, word: &str, names: &Names) -> Result<(), AllocError> {
    line.push_str(word)?;
    let mut left = names.read();
    'names: while let Some(name) = left.next() {
        add_name(line, name)?;
    }
    Ok(())
}

/// A text, in hexadecimal between quotes.
pub fn add_text(line: &mut String, alloc: Global, text: &Text) -> Result<(), AllocError> {
    write!(line, " '{}'", hex::encode(alloc, text.bytes())?)
}

/// A number.
pub fn add_number(line: &mut String, number: Number) -> Result<(), AllocError> {
    match number {
        Number::Fits(n) => write!(line, " {n}"),
        Number::Wide => line.push_str(" wide"),
    }
}

/// A number after a word, if it is there.
pub fn add_given(line: &mut String, word: &str, given: Option<Number>) -> Result<(), AllocError> {
    let Some(number) = given else {
        return Ok(());
    };
    line.push_str(word)?;
    add_number(line, number)
}

/// A literal.
pub fn add_literal(line: &mut String, alloc: Global, literal: &Literal) -> Result<(), AllocError> {
    match literal {
        Literal::Text(text) => add_text(line, alloc, text),
        Literal::Number(number) => add_number(line, *number),
        Literal::Uuid(bytes) => write!(line, " uuid {}", hex::encode(alloc, bytes)?),
        Literal::Null => line.push_str(" null"),
    }
}

fn add_each_literal(
    line: &mut String,
    alloc: Global,
    literals: &[Literal],
) -> Result<(), AllocError> {
    for literal in literals {
        add_literal(line, alloc, literal)?;
    }
    Ok(())
}

/// The values of an INSERT.
pub fn add_values(line: &mut String, alloc: Global, values: &Literals) -> Result<(), AllocError> {
    line.push_str(" values")?;
    add_each_literal(line, alloc, &values.unpack(alloc)?)
}

fn type_name(kind: ColumnType) -> &'static str {
    match kind {
        ColumnType::Text => " text",
        ColumnType::Int => " int",
        ColumnType::BigInt => " bigint",
        ColumnType::Uuid => " uuid",
    }
}

fn add_each_column(line: &mut String, columns: &[(Name, ColumnType)]) -> Result<(), AllocError> {
    for column in columns {
        add_name(line, column.0.bytes())?;
        line.push_str(type_name(column.1))?;
    }
    Ok(())
}

/// The columns of a CREATE TABLE with their types.
pub fn add_columns(
    line: &mut String,
    alloc: Global,
    columns: &DeclaredColumns,
) -> Result<(), AllocError> {
    line.push_str(" columns")?;
    add_each_column(line, columns.unpack(alloc)?.as_slice())
}

fn add_each_set(
    line: &mut String,
    alloc: Global,
    sets: &[(Name, Literal)],
) -> Result<(), AllocError> {
    for set in sets {
        add_name(line, set.0.bytes())?;
        add_literal(line, alloc, &set.1)?;
    }
    Ok(())
}

/// What an UPDATE sets.
pub fn add_sets(line: &mut String, alloc: Global, sets: &Sets) -> Result<(), AllocError> {
    line.push_str(" set")?;
    add_each_set(line, alloc, sets.unpack(alloc)?.as_slice())
}

fn add_each_option(
    line: &mut String,
    alloc: Global,
    options: &[(Text, Text)],
) -> Result<(), AllocError> {
    for option in options {
        add_text(line, alloc, &option.0)?;
        add_text(line, alloc, &option.1)?;
    }
    Ok(())
}

/// The options of an index.
pub fn add_options(line: &mut String, alloc: Global, options: &Options) -> Result<(), AllocError> {
    line.push_str(" options")?;
    add_each_option(line, alloc, &options.unpack(alloc)?)
}

fn test_name(test: Test) -> &'static str {
    match test {
        Test::Eq => " =",
        Test::Lt => " <",
        Test::Le => " <=",
        Test::Gt => " >",
        Test::Ge => " >=",
        Test::Like => " like",
    }
}

fn add_each_relation(
    line: &mut String,
    alloc: Global,
    relations: &[Relation],
) -> Result<(), AllocError> {
    for relation in relations {
        add_named(line, " where", &relation.column)?;
        line.push_str(test_name(relation.test))?;
        add_literal(line, alloc, &relation.value)?;
    }
    Ok(())
}

/// The relations of a SELECT.
pub fn add_relations(
    line: &mut String,
    alloc: Global,
    relations: &Relations,
) -> Result<(), AllocError> {
    add_each_relation(line, alloc, &relations.unpack(alloc)?)
}
