//! Tests of the open cursors: their order, which of them a name finds, and that they agree with a list of a model's over each call.
#![tactic(auto)]

#[cfg(test)]
mod agreement;
#[cfg(test)]
mod calls;
