// Which streams serve which relation.
ghost use Rattle.std.specs.Prelude.{◌≡◌, ◌++◌, ◌∷◌, [], IfOk, OnOk, OnErr};
ghost use Rattle.sasi_ranges.specs.inside.Meets.{singles};

use std::alloc::{AllocError, Global};
use std::marker::Model;

// The positions of the streams that serve a relation.
#[derive(Drop)]
pub(crate) struct StreamPositions {
    pub(crate) positions: Vec<usize>,
}

impl Model for StreamPositions {
    ghost use Rattle.std.specs.Prelude.{ℕ, List};

    ghost Value = { List ℕ };

    ghost view = { λ a. a.positions.items };
}

/// A list of relations, each as the positions of the streams that serve it in a list of streams.
#[derive(Drop)]
pub struct RelationStreams {
    items: Vec<StreamPositions>,
}

impl Model for RelationStreams {
    ghost use Rattle.std.specs.Prelude.{ℕ, List};

    ghost Value = { List (List ℕ) };

    ghost view = { λ a. a.items.items };
}

impl RelationStreams {
    /// The empty list.
    pub fn new(alloc: Global) -> RelationStreams
        ensures { result ≡ [] }
    {
        RelationStreams {
            items: Vec::new(alloc),
        }
    }

    /// Adds a relation at the end.
    pub fn push(&mut self, positions: Vec<usize>) -> Result<(), AllocError>
        ensures ok { OnOk result (self.new ≡ self.old ++ positions.items ∷ []) }
        ensures err { OnErr result (self.new ≡ self.old) }
    {
        self.items.push(StreamPositions { positions })?;
        Ok(())
    }

    // The relations, in order.
    pub(crate) fn as_slice(&self) -> &[StreamPositions]
        ensures { result.now ≡ self.now }
    {
        &self.items
    }
}

// The list of one position.
fn one(alloc: Global, at: usize) -> Result<Vec<usize>, AllocError>
    ensures { IfOk result (λ positions. positions.items ≡ at ∷ []) }
{
    let mut positions = Vec::new(alloc);
    positions.push(at)?;
    Ok(positions)
}

// Each of so many streams as a relation of its own.
pub(crate) fn each_alone(alloc: Global, count: usize) -> Result<RelationStreams, AllocError>
    ensures { IfOk result (λ relations. relations ≡ singles count) }
{
    let mut relations = RelationStreams::new(alloc);
    for at in 0..count {
        let positions = one(alloc, at)?;
        relations.push(positions)?;
    }
    Ok(relations)
}
