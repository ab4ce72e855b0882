//! The book of counted views: which files and maps the views in use list, and which of them are current. What isn't current and what no
//! view lists any more is given out once, to be deleted.
#![tactic(auto)]

mod component;
mod components;
mod counted;
mod counting;
mod dead;
mod known;
mod obsolete;
mod part;
mod view;
mod view_book;

pub use component::Component;
pub use part::{FileList, Part, PartList};
pub use view::View;
pub use view_book::ViewBook;
