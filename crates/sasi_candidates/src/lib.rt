//! What the candidates of a SELECT are: the keys that a search of the indexes leaves, over all files and maps of a table; and that no
//! row of the answer is missed where only they are read. These are definitions and their laws, no code; what reads rows by indexes
//! is proved against them.
#![tactic(auto)]
