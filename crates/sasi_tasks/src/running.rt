// Compactions that run.
use sasi_compact::CompactTask;
use sasi_types::TableNumber;

/// A compaction that runs in a table.
#[derive(Drop)]
pub struct RunningTask {
    pub table: TableNumber,
    pub task: CompactTask,
}
