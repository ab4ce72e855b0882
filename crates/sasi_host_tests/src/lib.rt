//! Tests of the hosts: sasi_host in memory, sasi_filehost on real files, and sasi_gated on the host in memory. What a run shows of
//! them is data of sasi_scripts. A host is dropped by `drop`, which is proved once, and not at the end of each function.
#![tactic(auto)]

#[cfg(test)]
mod buffered;
#[cfg(test)]
mod crashes;
#[cfg(test)]
mod gated;
#[cfg(test)]
mod many_files;
#[cfg(test)]
mod memory;
#[cfg(test)]
mod real_files;
