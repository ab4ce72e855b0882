//! Opening a folder: what a run or a crash left is read, each file that isn't listed is deleted, and the live segments of the
//! commit log are replayed into a memtable for each table. A folder without a seal gets a new store. It stands on sasi_manifest,
//! sasi_commitlog, sasi_memtable, sasi_dataread and sasi_indexread, and promises that what is opened is what the folder holds.
#![tactic(auto)]

mod classes;
mod fault;
mod file_ends;
mod files;
mod folder_sync;
mod names;
mod new_folder;
mod opened;
mod opening;
mod replay;
mod sealed_folder;
mod seals;
mod unlisted_files;

pub use fault::OpenFault;
pub use opened::{MapList, Numbers, Opened, TableMap};
pub use opening::open;
