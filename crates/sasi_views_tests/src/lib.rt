//! Tests of the book of counted views: what is counted while views are taken and given back, what a replacement leaves, and in which order
//! the dead components are given out.
#![tactic(auto)]

#[cfg(test)]
mod counts;
#[cfg(test)]
mod dead;
#[cfg(test)]
mod fixture;
