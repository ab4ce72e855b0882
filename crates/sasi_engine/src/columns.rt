// The positions of the streams that serve a relation.
ghost use Rattle.std.specs.Prelude.{◌≡◌, get_or, IfOk};
ghost use Rattle.sasi_engine.specs.HitLists.{column_of, columns_of};

use sasi_ranges::RelationStreams;
use std::alloc::{AllocError, Global};
use std::marker::Model;

// Of each relation the position of the stream that serves it in one part.
#[derive(Drop)]
pub(crate) struct PartPositions {
    pub(crate) positions: Vec<usize>,
}

impl Model for PartPositions {
    ghost use Rattle.std.specs.Prelude.{ℕ, List};

    ghost Value = { List ℕ };

    ghost view = { λ a. a.positions.items };
}

// The position of a relation; 0 past the last one.
fn position_at(row: &PartPositions, leaf: usize) -> usize
    ensures { result ≡ get_or row.now leaf 0 }
{
    match row.positions.get(leaf) {
        Some(position) => *position,
        None => 0,
    }
}

// The positions of one relation, part by part.
fn column_of(alloc: Global, rows: &[PartPositions], leaf: usize) -> Result<Vec<usize>, AllocError>
    ensures { IfOk result (λ column. column.items ≡ column_of rows.now leaf) }
{
    let mut column = Vec::with_capacity(alloc, rows.len())?;
    for row in rows {
        column.push(position_at(row, leaf))?;
    }
    Ok(column)
}

// Those of so many relations.
pub(crate) fn columns_of(
    alloc: Global,
    rows: &[PartPositions],
    count: usize,
) -> Result<RelationStreams, AllocError>
    ensures { IfOk result (λ relations. relations ≡ columns_of rows.now count) }
{
    let mut relations = RelationStreams::new(alloc);
    for leaf in 0..count {
        let column = column_of(alloc, rows, leaf)?;
        relations.push(column)?;
    }
    Ok(relations)
}
