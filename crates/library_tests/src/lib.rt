//! Tests of the libraries that need calls: values that are moved and compared, and trees too deep for a
//! table.
//!
//! What a call returns for an input is a case of the tables in `conformance`. These tests are a crate of
//! their own, since a crate with tests is proved twice.
#![tactic(auto)]

#[cfg(test)]
mod deep;
#[cfg(test)]
mod example;
#[cfg(test)]
mod shared;
#[cfg(test)]
mod values;
#[cfg(test)]
mod views;
