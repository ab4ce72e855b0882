//! Tests of term blocks: their bytes, which another writer of the format gave, and what is sought and scanned in them,
//! and few pairs in an entry.
#![tactic(auto)]

#[cfg(test)]
mod blocks;
#[cfg(test)]
mod fixture;
#[cfg(test)]
mod inline;
