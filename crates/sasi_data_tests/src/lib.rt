//! Tests of memtables, merges, scans of tables, formats, bodies, token trees, data files, index files beside them, and the indexes and
//! index files of manifests: their bytes, what is read of them, and damaged ones.
//! A host is dropped by `drop`, which is proved once, and not at the end of each function.
#![tactic(auto)]

#[cfg(test)]
mod bodies;
#[cfg(test)]
mod fixture;
#[cfg(test)]
mod formats;
#[cfg(test)]
mod index_files;
#[cfg(test)]
mod manifest_parts;
#[cfg(test)]
mod manifests;
#[cfg(test)]
mod memtables;
#[cfg(test)]
mod merges;
#[cfg(test)]
mod pairs;
#[cfg(test)]
mod reading;
#[cfg(test)]
mod reading_damage;
#[cfg(test)]
mod scanning;
#[cfg(test)]
mod table_scans;
#[cfg(test)]
mod tree_fixture;
#[cfg(test)]
mod trees;
#[cfg(test)]
mod writing;
