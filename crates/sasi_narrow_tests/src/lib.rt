//! Tests of the keys that relations leave: over two data files and a map.
#![tactic(auto)]

#[cfg(test)]
mod fixture;
#[cfg(test)]
mod rows;
