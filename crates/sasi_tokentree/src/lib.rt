//! Token trees in files: sorted pairs of a token and an offset, in leaves below nodes of their least tokens. A tree is
//! written from left to right, and scanned from any token on. A scan reads each page once.
#![tactic(auto)]

mod next_pair;
mod node_decode;
mod node_encode;
mod node_layout;
mod node_read;
mod order;
mod pair_scan;
mod seek;
mod tree;
mod writing;

pub use node_layout::{MAX_ENTRIES, is_node_offset, tree_size};
pub use order::is_rising;
pub use sasi_types::{Pair, PairList, TreeRef};
pub use seek::{is_tree_ref, size_below_root};
pub use tree::Tree;
pub use writing::{put_small_tree, write};
