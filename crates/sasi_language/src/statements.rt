// Statements, each spelled on a line: its kind, and its fields behind words.
use crate::fields::{
    add_columns, add_given, add_literal, add_name, add_named, add_names, add_number, add_options,
    add_relations, add_sets, add_text, add_values,
};
use sasi_types::{Literal, Name, Names, Number, Options, Select, Statement, Text};
use std::alloc::{AllocError, Global};

// A statement of a kind, a name and a number.
fn add_counted(
    line: &mut String,
    kind: &str,
    name: &Name,
    number: Number,
) -> Result<(), AllocError> {
    add_named(line, kind, name)?;
    add_number(line, number)
}

// The columns of a SELECT.
fn add_selected(line: &mut String, columns: &Option<Names>) -> Result<(), AllocError> {
    match columns {
        Some(names) => add_names(line, " columns", names),
        None => line.push_str(" columns *"),
    }
}

fn add_select(line: &mut String, alloc: Global, select: &Select) -> Result<(), AllocError> {
    add_selected(line, &select.columns)?;
    add_named(line, " from", &select.table)?;
    add_relations(line, alloc, &select.relations)?;
    add_given(line, " limit", select.limit)?;
    write!(line, " filtering {}", select.filtering)
}

// The key column of a WHERE, and its literal.
fn add_key(
    line: &mut String,
    alloc: Global,
    key: &Name,
    value: &Literal,
) -> Result<(), AllocError> {
    add_named(line, " key", key)?;
    add_literal(line, alloc, value)
}

// The table and the column of an index, its class and its options.
fn add_index(
    line: &mut String,
    alloc: Global,
    table: &Name,
    column: &Name,
    class: &Text,
    options: &Options,
) -> Result<(), AllocError> {
    add_named(line, " on", table)?;
    add_name(line, column.bytes())?;
    line.push_str(" class")?;
    add_text(line, alloc, class)?;
    add_options(line, alloc, options)
}

// How an index is made, and its name, or `?` for the one that it gets.
fn add_creation(line: &mut String, stepped: bool, name: &Option<Name>) -> Result<(), AllocError> {
    let kind = if stepped {
        "begin index"
    } else {
        "create index"
    };
    match name {
        Some(name) => add_named(line, kind, name),
        None => write!(line, "{kind} ?"),
    }
}

// What changes rows.
fn add_write(line: &mut String, alloc: Global, statement: &Statement) -> Result<(), AllocError> {
    match statement {
        Statement::Insert {
            table,
            columns,
            values,
            time,
        } => {
            add_named(line, "insert", table)?;
            add_names(line, " columns", columns)?;
            add_values(line, alloc, values)?;
            add_given(line, " time", *time)
        }
        Statement::Update {
            table,
            time,
            sets,
            key,
            value,
        } => {
            add_named(line, "update", table)?;
            add_given(line, " time", *time)?;
            add_sets(line, alloc, sets)?;
            add_key(line, alloc, key, value)
        }
        Statement::Delete {
            table,
            columns,
            time,
            key,
            value,
        } => {
            add_named(line, "delete", table)?;
            add_names(line, " columns", columns)?;
            add_given(line, " time", *time)?;
            add_key(line, alloc, key, value)
        }
        _ => add_query(line, alloc, statement),
    }
}

// What reads rows, TRACE and SHOW FILES.
fn add_query(line: &mut String, alloc: Global, statement: &Statement) -> Result<(), AllocError> {
    match statement {
        Statement::Query { select } => {
            line.push_str("select")?;
            add_select(line, alloc, select)
        }
        Statement::OpenCursor { cursor, select } => {
            add_named(line, "open", cursor)?;
            add_select(line, alloc, select)
        }
        Statement::Fetch { cursor, count } => add_counted(line, "fetch", cursor, *count),
        Statement::CloseCursor { cursor } => add_named(line, "close", cursor),
        Statement::Trace { on: true } => line.push_str("trace on"),
        Statement::Trace { on: false } => line.push_str("trace off"),
        Statement::ShowFiles => line.push_str("show files"),
        _ => add_task(line, statement),
    }
}

// What works on files.
fn add_task(line: &mut String, statement: &Statement) -> Result<(), AllocError> {
    match statement {
        Statement::DropIndex { index } => add_named(line, "drop index", index),
        Statement::Flush { table } => add_named(line, "flush", table),
        Statement::Compact { table } => add_named(line, "compact", table),
        Statement::Rebuild { index } => add_named(line, "rebuild index", index),
        Statement::BeginCompact { table } => add_named(line, "begin compact", table),
        Statement::BeginRebuild { index } => add_named(line, "begin rebuild index", index),
        Statement::StepCompact { table, units } => add_counted(line, "step compact", table, *units),
        Statement::StepIndex { index, units } => add_counted(line, "step index", index, *units),
        _ => Ok(()),
    }
}

/// A statement: one that creates a table or an index, or another one.
pub fn add_statement(
    line: &mut String,
    alloc: Global,
    statement: &Statement,
) -> Result<(), AllocError> {
    match statement {
        Statement::CreateTable {
            table,
            columns,
            keys,
        } => {
            add_named(line, "create table", table)?;
            add_columns(line, alloc, columns)?;
            add_names(line, " keys", keys)
        }
        Statement::CreateIndex {
            name,
            table,
            column,
            class,
            options,
            stepped,
        } => {
            add_creation(line, *stepped, name)?;
            add_index(line, alloc, table, column, class, options)
        }
        _ => add_write(line, alloc, statement),
    }
}
