//! Tests of the page cache over a host in memory: which page takes a read, which one goes, and what an error leaves.
#![tactic(auto)]

#[cfg(test)]
mod cached;
