//! Tests of `sasi_run` and of what it stands on: what crashes and faults of whole runs in memory leave, the tables in memory alone,
//! what stores and manifests say of their calls, and the lines of statuses. Cases that are text or bytes alone are the data of `sasi_scripts`.
#![tactic(auto)]

#[cfg(test)]
mod cases;
#[cfg(test)]
mod crashes;
#[cfg(test)]
mod files;
#[cfg(test)]
mod loads;
#[cfg(test)]
mod machine;
#[cfg(test)]
mod manifests;
#[cfg(test)]
mod messages;
#[cfg(test)]
mod runs;
#[cfg(test)]
mod stores;
