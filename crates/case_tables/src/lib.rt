//! How tables of cases are read, what is tried of a tree, and the calls of the libraries below `cm_tool`.
//!
//! It is only for the program `conformance`. Start with [`cases`] for a table with several lines for each
//! case, and with [`calls`] for one with a call on each line. docs/testing.md says how to add a case.
#![tactic(auto)]

pub mod calls;
pub mod cases;
pub mod cuts;
pub mod dialects;
mod escapes;
mod lines;
mod listed;
mod spelled;
pub mod trees;
pub mod trouble;
pub mod words;
