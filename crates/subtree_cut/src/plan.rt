// Plans of a document for expansion.

use ctx_types::ActiveContext;
use ld_json::Place;
use ld_text::Text;
use ld_tree::Tree;

/// A piece of a document: a range of the items of one of its arrays, with what the array is expanded with.
#[derive(Drop)]
pub struct ExpandPiece<'a> {
    /// Where the array stands.
    pub array: Place,
    /// The number of the first item, counted from 0.
    pub from: u64,
    /// The items.
    pub items: &'a [Tree],
    /// The number of the active context among those of the plan, counted from 0.
    pub context: u32,
    /// The active property; None is null.
    pub property: Option<Text>,
    /// The flag from map: the array stands in a map of indexes, ids or types.
    pub from_map: bool,
}

/// A plan of a document: its pieces, in the order in which expansion comes to them, and the contexts that they are expanded with, which
/// several pieces may have.
#[derive(Drop)]
pub struct ExpandPlan<'a> {
    /// The pieces.
    pub pieces: Vec<ExpandPiece<'a>>,
    /// The active contexts.
    pub contexts: Vec<ActiveContext>,
}
