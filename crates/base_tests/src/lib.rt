//! Tests of the crates at the base: tables, IRI references, RDF terms. They call the public functions alone.
#![tactic(auto)]

#[cfg(test)]
mod iri_tests;
#[cfg(test)]
mod table_tests;
#[cfg(test)]
mod term_tests;
