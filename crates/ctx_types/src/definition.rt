// Term definitions.
ghost use Rattle.std.specs.Prelude.{◌≡◌};
ghost use Rattle.std.specs.Bool.{Decides};
ghost use Rattle.std.specs.Option.{option_map};
ghost use Rattle.std.specs.Str.{bytes_eq};
ghost use Rattle.ld_model.specs.Tree.{same_tree};
ghost use Rattle.ld_tree.specs.View.{view};
ghost use Rattle.ctx_types.specs.Same.{AreSameButProtected, same_but_protected, same_option, same_shape, same_side, same_slot};
ghost use Rattle.ctx_types.specs.View.{definition_view};

use case_tables::Shape;
use ld_tree::{Text, Tree};

/// A setting that may be absent, null, or there.
#[derive(Drop)]
pub enum Slot<T> {
    /// Nothing is said.
    Absent,
    /// It is set to null, which undoes a default.
    Null,
    /// It is set to this value.
    Is(T),
}

/// A base direction.
#[derive(Clone, Copy, Debug, PartialEq, Eq)]
pub enum Side {
    /// `ltr`
    Ltr,
    /// `rtl`
    Rtl,
}

/// A term definition (JSON-LD 1.1 API, section 4.1).
#[derive(Drop)]
pub struct TermDef {
    /// The IRI mapping; None is null.
    pub mapping: Option<Text>,
    /// The prefix flag: whether the term may stand before the colon of a compact IRI.
    pub prefix: bool,
    /// Whether the definition is protected.
    pub protected: bool,
    /// Whether the term is a reverse property.
    pub reverse: bool,
    /// The base URL of the scoped context.
    pub base: Option<Text>,
    /// The scoped context.
    pub local: Option<Tree>,
    /// The container mapping.
    pub container: Shape,
    /// The direction mapping.
    pub side: Slot<Side>,
    /// The index mapping.
    pub index: Option<Text>,
    /// The language mapping.
    pub language: Slot<Text>,
    /// The nest value.
    pub nest: Option<Text>,
    /// The type mapping.
    pub kind: Option<Text>,
}

impl TermDef {
    /// Whether two definitions are the same but for whether they are protected, which is no change of a protected term
    /// (JSON-LD 1.1 API, section 4.2.2, step 27). It takes no memory.
    pub fn same_but_protected(&self, other: &TermDef) -> bool
        ensures equal { Decides result (AreSameButProtected (definition_view self.now) (definition_view other.now)) }
        ensures test { result ≡ same_but_protected (definition_view self.now) (definition_view other.now) }
    {
        agree(self, other)
    }
}

// Whether two definitions agree in all but whether they are protected, field by field.
fn agree(a: &TermDef, b: &TermDef) -> bool
    ensures { result ≡ same_but_protected (definition_view a.now) (definition_view b.now) }
{
    same_text(&a.mapping, &b.mapping)
        && a.prefix == b.prefix
        && a.reverse == b.reverse
        && same_text(&a.base, &b.base)
        && same_local(&a.local, &b.local)
        && same_shape(&a.container, &b.container)
        && same_side(&a.side, &b.side)
        && same_text(&a.index, &b.index)
        && same_language(&a.language, &b.language)
        && same_text(&a.nest, &b.nest)
        && same_text(&a.kind, &b.kind)
}

/// Whether both texts are absent, or both are there and equal.
pub fn same_text(a: &Option<Text>, b: &Option<Text>) -> bool
    ensures { result ≡ same_option bytes_eq a.now b.now }
{
    match (a, b) {
        (None, None) => true,
        (Some(a), Some(b)) => a.as_str() == b.as_str(),
        _ => false,
    }
}

fn same_local(a: &Option<Tree>, b: &Option<Tree>) -> bool
    ensures { result ≡ same_option same_tree (option_map view a.now) (option_map view b.now) }
{
    match (a, b) {
        (None, None) => true,
        (Some(a), Some(b)) => a.same(b),
        _ => false,
    }
}

fn same_shape(a: &Shape, b: &Shape) -> bool
    ensures { result ≡ same_shape a.now b.now }
{
    a.graph == b.graph
        && a.id == b.id
        && a.index == b.index
        && a.language == b.language
        && a.list == b.list
        && a.set == b.set
        && a.types == b.types
}

fn same_side(a: &Slot<Side>, b: &Slot<Side>) -> bool
    ensures { result ≡ same_slot same_side a.now b.now }
{
    match (a, b) {
        (Slot::Absent, Slot::Absent) => true,
        (Slot::Null, Slot::Null) => true,
        (Slot::Is(a), Slot::Is(b)) => match (a, b) {
            (Side::Ltr, Side::Ltr) => true,
            (Side::Rtl, Side::Rtl) => true,
            _ => false,
        },
        _ => false,
    }
}

fn same_language(a: &Slot<Text>, b: &Slot<Text>) -> bool
    ensures { result ≡ same_slot bytes_eq a.now b.now }
{
    match (a, b) {
        (Slot::Absent, Slot::Absent) => true,
        (Slot::Null, Slot::Null) => true,
        (Slot::Is(a), Slot::Is(b)) => a.as_str() == b.as_str(),
        _ => false,
    }
}
