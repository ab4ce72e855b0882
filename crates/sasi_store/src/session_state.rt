// What a run adds to a store.
use sasi_cursors::Cursors;
use sasi_fetch::Cursor;
use sasi_tasks::RunningTask;
use sasi_types::TableNumber;
use sasi_views::ViewBook;

/// What a store keeps for the run that uses it, and nothing keeps after it.
#[derive(Drop)]
pub struct SessionState {
    /// TRACE is on: each SELECT tells how many candidates it checked.
    pub trace: bool,
    /// The views that are out: those of the cursors, between two statements.
    pub views: ViewBook,
    /// The open cursors by their names.
    pub cursors: Cursors<OpenCursor>,
    /// The compactions that run, in the order in which they were begun.
    pub tasks: Vec<RunningTask>,
}

/// An open cursor.
#[derive(Drop)]
pub struct OpenCursor {
    pub table: TableNumber,
    pub rows: Cursor,
}
