//! The reading of scripts: a splitter cuts their bytes into pieces, and a parser finds the statement of a piece, or the offset
//! at which it stops being one. It promises exactly the pieces, statements and offsets of the model.
#![tactic(auto)]

mod byte;
mod declarations;
mod declared;
mod fault;
mod front;
mod grammar;
mod halt;
mod index;
mod integer;
mod item;
mod lexer;
mod list;
mod literal;
mod mode;
mod offset;
mod parser;
mod part;
mod quoted;
mod select;
mod separator;
mod splitter;
mod stage;
mod statement;
mod table;
mod task;
mod token;
mod word;
mod write;

pub use fault::ParseFault;
pub use grammar::grammar_is_parsed;
pub use parser::parse;
pub use splitter::Splitter;
