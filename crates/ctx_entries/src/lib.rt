//! What the entries of a local context and of a term definition say, where no other term and no other context is needed for it
//! (JSON-LD 1.1 API, sections 4.1.2 and 4.2.2).
//!
//! [`Ask`] is a call of context processing, [`LocalContext`] a local context that is a map, whose entries are
//! [`ContextEntries`], and [`Progress`] what the creation of its terms changes. The functions of `definition` read an entry of a
//! term definition each.
//!
//! Of `specs/`, a reviewer reads `Answers.antt`, which says how a call's result stands to the outcome of the standard's step, and
//! `View.antt`, which says for what data of the definitions a value stands. `Left.antt`, `Marks.antt` and `Merge.antt` stand
//! between calls: what is left of the limits, the map `defined`, and a step of merging.
#![tactic(auto)]

mod definition;
mod local;
mod state;
mod stop;
mod words;

pub use definition::{
    IriMapping, Mapped, can_be_prefix, definition_entry, has_known_entries, index_of,
    is_definition, is_simple, language_of, mapped_by_prefix, may_be_kind, may_define_type, nest_of,
    prefix_of, protected_by, reverse_container, reverse_definition, side_named, side_of,
    without_colon,
};
pub use local::{Ask, ContextEntries, LocalContext};
pub use state::{Marks, Progress, is_undone, mark};
pub use stop::ContextStop;
pub use words::{
    among, ends_in_delimiter, has_colon_or_slash, has_inner_colon, has_slash, is_absent_or_truth,
    is_iri, is_iri_or_blank, is_one_of, is_some_keyword, is_true, is_word,
};
