//! Expansion (JSON-LD 1.1 API, section 5.1): of a whole document, and of a range of an array's items.
//!
//! The recursion is one for all calls: what is done with the items of an array is asked of a [`Ranges`], and where nothing is answered from
//! elsewhere each is expanded. [`expand_with`] takes the outcomes of ranges from an [`Answers`]; [`document_over`] is for callers that have a
//! [`Ranges`] of their own.
#![tactic(auto)]

mod answered;
mod at;
mod document;
mod parts;
mod places;
mod ranges;
mod recursion;
mod settling;
mod stop;

pub use answered::{Answer, Answers, copied, expand_with};
pub use at::At;
pub use document::{document_over, expand_document, expand_range};
pub use places::{is_same_step, leads_by};
pub use ranges::{Asked, Given, Ranges, Refusal};
pub use stop::ExpandStop;
