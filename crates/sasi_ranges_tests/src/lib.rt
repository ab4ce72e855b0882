//! Tests of unions and intersections: over lists in memory, what is given, in which order and how often, and what a skip leaves.
#![tactic(auto)]

#[cfg(test)]
mod fixture;
#[cfg(test)]
mod intersections;
#[cfg(test)]
mod unions;
