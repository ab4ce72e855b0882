//! Tests of plans and of readers over views of a data file and of a map in memory.
#![tactic(auto)]

#[cfg(test)]
mod fixture;
#[cfg(test)]
mod plans;
#[cfg(test)]
mod queries;
#[cfg(test)]
mod readers;
