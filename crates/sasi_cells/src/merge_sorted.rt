// The merge of two lists of cells with rising columns, in one pass.
ghost use Rattle.std.specs.Prelude.{◌≡◌, ◌+◌, ◌≤◌, ◌<◌, ◌++◌, ◌∷◌, [], length, None};
ghost use Rattle.std.specs.Option.{option_to_list};
ghost use Rattle.std.specs.Vec.{vec_len, vec_capacity};
ghost use Rattle.std.specs.VecDeque.{deque_len};
ghost use Rattle.sasi_model.specs.Cells.{newest};
ghost use Rattle.sasi_cells.specs.Entries.{merged_sorted, lower_column, newest_entry, unshadowed_entries};

use crate::Entry;
use crate::order::newest;
use std::cmp::Ordering;
use std::collections::VecDeque;

// Which of two lists begins with the lower column; None where both are empty.
fn lower_column(mine: &VecDeque<Entry>, theirs: &VecDeque<Entry>) -> Option<Ordering>
    ensures { result ≡ lower_column mine.now.items theirs.now.items }
{
    match (mine.front(), theirs.front()) {
        (None, None) => None,
        (Some(_), None) => Some(Ordering::Less),
        (None, Some(_)) => Some(Ordering::Greater),
        (Some(a), Some(b)) => Some(a.column().cmp(&b.column())),
    }
}

// The newer of two entries of one column.
fn newest_of_column(a: Entry, b: Entry) -> Entry
    ensures { result ≡ (a.0, newest a.1 b.1) }
{
    let column = a.column();
    Entry::new(column, newest(a.into_cell(), b.into_cell()))
}

// The newer of two entries of one column, if there is one.
fn newest_entry(a: Option<Entry>, b: Option<Entry>) -> Option<Entry>
    ensures { result ≡ newest_entry a b }
{
    match (a, b) {
        (Some(a), Some(b)) => Some(newest_of_column(a, b)),
        (None, b) => b,
        (a, None) => a,
    }
}

// Removes the entry of the lowest column from both lists.
fn next_entry(mine: &mut VecDeque<Entry>, theirs: &mut VecDeque<Entry>) -> Option<Entry>
    ensures items { merged_sorted mine.old.items theirs.old.items ≡ option_to_list result ++ merged_sorted mine.new.items theirs.new.items }
    ensures len { deque_len mine.new + deque_len theirs.new + length (option_to_list result) ≤ deque_len mine.old + deque_len theirs.old }
    ensures end { result ≡ None → merged_sorted mine.old.items theirs.old.items ≡ [] }
{
    match lower_column(mine, theirs) {
        None => None,
        Some(Ordering::Less) => mine.pop_front(),
        Some(Ordering::Greater) => theirs.pop_front(),
        Some(Ordering::Equal) => newest_entry(mine.pop_front(), theirs.pop_front()),
    }
}

// Adds an entry at the end of a list that has room for it.
fn push_within_capacity(cells: &mut Vec<Entry>, entry: Entry)
    requires { vec_len cells.old < vec_capacity cells.old }
    ensures items { cells.new.items ≡ cells.old.items ++ entry ∷ [] }
    ensures len { vec_len cells.new ≡ vec_len cells.old + 1 }
    ensures capacity { vec_capacity cells.old ≤ vec_capacity cells.new }
{
    let _ = cells.push(entry);
}

// The newest cell of each column of both lists, without those that a deletion at this time shadows. They go into `room`,
// which has capacity for all, so no memory is needed.
pub(crate) fn merge_sorted(
    deleted: u64,
    mine: Vec<Entry>,
    theirs: Vec<Entry>,
    room: Vec<Entry>,
) -> Vec<Entry>
    requires empty { room.items ≡ [] }
    requires enough { vec_len mine + vec_len theirs ≤ vec_capacity room }
    ensures { result.items ≡ unshadowed_entries deleted (merged_sorted mine.items theirs.items) }
{
    let mut cells = room;
    let mut mine = VecDeque::from_vec(mine);
    let mut theirs = VecDeque::from_vec(theirs);
    'entries: while let Some(entry) = next_entry(&mut mine, &mut theirs) {
        if entry.time() > deleted {
            push_within_capacity(&mut cells, entry);
        }
    }
    cells
}
