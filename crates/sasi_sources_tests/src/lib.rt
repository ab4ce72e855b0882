//! Tests of sources of candidates that need no index, and of the recheck of what they give: look-ups of a key and scans over a data
//! file and a map in memory.
#![tactic(auto)]

#[cfg(test)]
mod choices;
#[cfg(test)]
mod fixture;
#[cfg(test)]
mod key_look_ups;
#[cfg(test)]
mod queries;
#[cfg(test)]
mod rechecks;
#[cfg(test)]
mod steps;
#[cfg(test)]
mod table_scans;
