//! What a folder holds: a manifest that counts, and the live segments of the log; which corruption it shows, and which folders are
//! opened. These are definitions and their laws, no code; the crates that open a folder, write to it and run scripts over it are
//! proved against them.
#![tactic(auto)]
