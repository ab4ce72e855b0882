//! Tests of the crates below any host: sasi_types, sasi_cells, sasi_fields, sasi_schema, the splitter of sasi_cql, sasi_print, and the
//! preparations and row queries of sasi_machine. What a run shows of them is tested by sasi_scripts, and what the parser reads by sasi_language.
#![tactic(auto)]

#[cfg(test)]
mod cells;
#[cfg(test)]
mod definitions;
#[cfg(test)]
mod fields;
#[cfg(test)]
mod indexes;
#[cfg(test)]
mod preparations;
#[cfg(test)]
mod print;
#[cfg(test)]
mod row_queries;
#[cfg(test)]
mod splitter;
#[cfg(test)]
mod tokens;
