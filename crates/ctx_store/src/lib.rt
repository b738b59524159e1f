//! A folder of JSON-LD contexts, by their IRIs.
//!
//! A file `index.txt` names the file of each IRI. [`load`] reads the index and its files into a [`Store`], and
//! [`Store::get`] looks an IRI up. Nothing is fetched from elsewhere.
//!
//! Contracts see a [`Store`] as a list of pairs in the order of the IRIs' bytes: each IRI with the tree of its file, or with
//! none where the file is unreadable.
#![tactic(auto)]

mod index;
mod store;

pub use store::{Loaded, Store, StoreRefusal, load};
