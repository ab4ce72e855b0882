// A choice among the images that a crash may leave.

/// What becomes of the names that were made or deleted since the last sync of the folder.
#[derive(Clone, Copy, Debug, PartialEq, Eq)]
pub enum NamePick {
    /// They are as the folder reads.
    AsNow,
    /// They are as the folder was synced.
    AsSynced,
}

/// What becomes of the ranges that were written since the last sync of their file.
#[derive(Clone, Copy, Debug, PartialEq, Eq)]
pub enum BytePick {
    /// They are as the file reads.
    AsNow,
    /// They are as the file was synced.
    AsSynced,
    /// They hold the byte 0.
    Zeros,
    /// They hold the byte 255.
    Ones,
}

/// One of the images.
#[derive(Clone, Copy, Debug, PartialEq, Eq)]
pub struct Pick {
    pub names: NamePick,
    pub bytes: BytePick,
}
