//! Sources of candidates that need no index: a look-up of the key that a WHERE asks for, and a scan of all keys. It stands on sasi_scan and
//! keeps the clauses of the trait of sasi_recheck.
#![tactic(auto)]

mod key_candidates;
mod scan_candidates;

pub use key_candidates::KeyCandidates;
pub use scan_candidates::ScanCandidates;
