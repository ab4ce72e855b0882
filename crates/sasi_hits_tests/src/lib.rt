//! Tests of the hits of a relation, over index files, data files and maps in memory: what is given, in which order, and what a skip
//! leaves; and of look-ups of keys in data files.
#![tactic(auto)]

#[cfg(test)]
mod files;
#[cfg(test)]
mod fixture;
#[cfg(test)]
mod indexes;
#[cfg(test)]
mod lookups;
#[cfg(test)]
mod parts;
