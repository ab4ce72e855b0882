//! Tests of what an index is made of: patterns and terms, analyzers, the gathering of postings, and the indexes of memtables.
#![tactic(auto)]

#[cfg(test)]
mod analyzers;
#[cfg(test)]
mod gathering;
#[cfg(test)]
mod mem_indexes;
#[cfg(test)]
mod mem_ranges;
#[cfg(test)]
mod patterns;
