//! Tests of index files: their bytes, which another writer of the format gave, and searches of them.
#![tactic(auto)]

#[cfg(test)]
mod files;
#[cfg(test)]
mod fixture;
#[cfg(test)]
mod ranges;
#[cfg(test)]
mod roots;
#[cfg(test)]
mod searches;
