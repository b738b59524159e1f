//! The definitions of expansion and value expansion (JSON-LD 1.1 API, sections 5.1 and 5.3), step by step in the order of the
//! standard, with the place of each error.
//!
//! `specs/` has them. `Values.antt` is value expansion, `Contexts.antt` the contexts of a value, `Entries.antt`, `Keywords.antt`,
//! `Properties.antt` and `Indexes.antt` the rules for entries of a map, `Finish.antt` the tests of what they came to, and
//! `Expand.antt` the recursion. `Over.antt` is the same recursion where ranges of an array's items may be answered from elsewhere.
//! The two enums below are cited there.
#![tactic(auto)]

use case_tables::Keyword;
use ld_text::Text;

/// What the key of an entry stands for (section 5.1.2, steps 13.1 to 13.4).
#[derive(Debug, Drop)]
pub enum Name {
    /// Nothing: the entry is dropped.
    Dropped,
    /// A keyword.
    Keyword(Keyword),
    /// A property, by its IRI or blank node identifier.
    Property(Text),
}

/// How the value of an entry is treated (section 5.1.2, steps 13.4 to 13.9).
#[derive(Clone, Copy, Debug, PartialEq, Eq)]
pub enum Task {
    /// Nothing in it is expanded.
    Tells,
    /// It is expanded.
    Expands,
    /// It is a map whose entries' values are expanded, each with its key as an index.
    Indexes,
}
