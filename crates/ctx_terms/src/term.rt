// A term, and what is known of it on the way to its definition.
use ld_tree::{Text, Tree};

/// A term of a local context, and its value there.
#[derive(Drop)]
pub(crate) struct Term<'a> {
    pub name: &'a str,
    pub value: &'a Tree,
}

/// The settings of a definition that the steps before have made.
#[derive(Drop)]
pub(crate) struct Settled {
    pub protected: bool,
    /// The type mapping.
    pub kind: Option<Text>,
}
