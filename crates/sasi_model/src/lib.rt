//! What a reader has to believe: the meaning of a script, as definitions over lists and finite maps, without code. Read them in
//! this order: Pieces, Tokens, Forms, Statements, Cells, State, Indexes, Relations, Refusals, IndexTerms, Conditions, Filters, Lines,
//! Step.
#![tactic(auto)]
