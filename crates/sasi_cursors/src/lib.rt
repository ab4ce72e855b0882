//! The open cursors of a session: a list by name in the order of opening, whatever a cursor is. It stands on sasi_types and
//! indexmap, and promises that no name stands twice and that the cursors keep their order.
#![tactic(auto)]

mod cursors;

pub use cursors::Cursors;
