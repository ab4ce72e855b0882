// Searches in a list of cells with rising columns.
ghost use Rattle.std.specs.Prelude.{◌≡◌, true, IfOk, IfErr, map, max};
ghost use Rattle.std.specs.Ordering.{nat_cmp};
ghost use Rattle.std.specs.FinMap.{is_sorted};
ghost use Rattle.sasi_model.specs.Abbreviations.{any_live, max_timestamp_in};
ghost use Rattle.sasi_cells.specs.Positions.{IsColumnAt, IsGapFor};

use crate::Entry;

// Where the column's cell is, or where it would go.
pub(crate) fn search(cells: &[Entry], column: u16) -> Result<usize, usize>
    requires { is_sorted nat_cmp cells.now ≡ true }
    ensures found { IfOk result (IsColumnAt cells.now column) }
    ensures absent { IfErr result (IsGapFor cells.now column) }
{
    cells.binary_search_by_key(&column, |entry| entry.column())
}

// Whether a cell has a value.
pub(crate) fn any_live(cells: &[Entry]) -> bool
    ensures { result ≡ any_live (map (λ e. e.1) cells.now) }
{
    for entry in cells {
        if entry.value().is_some() {
            return true;
        }
    }
    false
}

// The maximum of the timestamps of the cells and another one.
pub(crate) fn max_timestamp_in(cells: &[Entry], other: u64) -> u64
    ensures { result ≡ max other (max_timestamp_in (map (λ e. e.1) cells.now)) }
{
    let mut max_timestamp = other;
    for entry in cells {
        max_timestamp = max_timestamp.max(entry.time());
    }
    max_timestamp
}
