//! Tests of the program's call and of node map generation, through their public functions, over streams and a folder in memory.
#![tactic(auto)]

#[cfg(test)]
mod document_tests;
#[cfg(test)]
mod fault_tests;
#[cfg(test)]
mod node_map_tests;
#[cfg(test)]
mod order_tests;
#[cfg(test)]
mod runs;
