//! Tests of `sasi_machine_layout`: the candidates that it counts are those that a run in memory tells while TRACE is on.
#![tactic(auto)]

#[cfg(test)]
mod counts;
