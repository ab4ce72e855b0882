// The log of a host in memory.
use crate::FileName;
use crate::byte_buffer::ByteBuffer;

// A call that changed, synced or emitted something, or a file that was put.
#[derive(Drop)]
pub enum Call {
    Created(FileName),
    Wrote(FileName, u64, ByteBuffer),
    Synced(FileName),
    Deleted(FileName),
    FolderSynced,
    Emitted(ByteBuffer),
    Put(FileName, ByteBuffer),
}
