//! Tests of compactions: what each unit leaves, and what a task that is given up leaves.
#![tactic(auto)]

#[cfg(test)]
mod fixture;
#[cfg(test)]
mod units;
