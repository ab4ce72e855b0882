// What the command line names.
use sasi_types::Partitioner;

/// What the words of the command line ask for.
#[derive(Clone, Copy, Debug, PartialEq, Eq)]
pub struct Command {
    /// The partitioner that the folder is to have, if one is asked.
    pub partitioner: Option<Partitioner>,
    /// The index of the folder's path among the words.
    pub folder: usize,
    /// The index of the script's path among the words.
    pub script: usize,
}
