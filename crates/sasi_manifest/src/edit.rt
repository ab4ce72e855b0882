// Edits of a manifest.
ghost use Rattle.std.specs.Prelude.{◌≡◌};
ghost use Rattle.sasi_manifest.specs.Listings.{fold_of, index_edit};

use crate::files::{ListedFiles, NumberList};
use sasi_host::SegmentNumber;
use sasi_types::{Columns, IndexDef, Name, Partitioner, Rule, TableNumber};

/// A change of the listing of a manifest.
#[derive(Drop)]
pub enum Edit {
    /// The first edit of a manifest: no tables, and the live segments of the log from `floor` to `last`.
    Start {
        partitioner: Partitioner,
        floor: SegmentNumber,
        last: SegmentNumber,
    },
    /// A table, after the others. `key` is the position of the key column, and `since` the first segment of the log that
    /// can have mutations of the table.
    CreateTable {
        number: TableNumber,
        name: Name,
        columns: Columns,
        key: u16,
        since: SegmentNumber,
    },
    /// An index of a table. The type of its column isn't in the bytes. `fold` is the byte that says whether letters are folded: what the rule
    /// says, and nothing where there is none.
    CreateIndex {
        def: IndexDef,
        fold: bool,
    },
    /// Data files of a table that take the place of others. From then on `since` is the table's first segment, and `floor` and `last`
    /// are the first and the last live one.
    Replace {
        table: TableNumber,
        removed: NumberList,
        added: ListedFiles,
        since: SegmentNumber,
        floor: SegmentNumber,
        last: SegmentNumber,
    },
}

impl Edit {
    /// The edit that is written for an index. Where it has no rule, no letters are folded.
    pub fn create_index(def: IndexDef) -> Edit
        ensures { result ≡ index_edit def }
    {
        let fold = fold_of(def.rule);
        Edit::CreateIndex { def, fold }
    }
}

// Whether a rule folds letters.
fn fold_of(rule: Option<Rule>) -> bool
    ensures { result ≡ fold_of rule }
{
    match rule {
        None => false,
        Some(rule) => rule.folds(),
    }
}
