//! Tests of cursors over views of a data file and of maps in memory: what is fetched in pieces, and what stays fetched as it was.
#![tactic(auto)]

#[cfg(test)]
mod between;
#[cfg(test)]
mod fetches;
#[cfg(test)]
mod fixture;
#[cfg(test)]
mod pieces;
#[cfg(test)]
mod queries;
