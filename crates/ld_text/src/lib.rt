//! Texts: what keys, values and names are made of.
//!
//! Contracts see a [`Text`] as the bytes of its UTF-8. It takes 24 bytes itself; at most 22 bytes of text stand in it,
//! and the bytes of a longer text are shared by all its copies.
#![tactic(auto)]

mod room;
mod string;

pub use string::Text;
