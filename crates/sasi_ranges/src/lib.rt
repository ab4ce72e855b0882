//! Hits of the relations of a query, in the order of their tokens: streams of entries, which read a file no sooner than its entry is
//! asked for, and their union and intersection, which are streams themselves. In any file each call ends.
#![tactic(auto)]

mod entry;
mod head;
mod heads;
mod intersection;
mod list_stream;
mod relation_streams;
mod stream;
mod streams;
mod union;

pub use entry::Entry;
pub use intersection::Intersection;
pub use list_stream::ListStream;
pub use relation_streams::RelationStreams;
pub use stream::TokenStream;
pub use streams::Streams;
pub use union::Union;
