// Small tests of values.
ghost use Rattle.std.specs.Prelude.{◌≡◌};
ghost use Rattle.ld_tree.specs.View.{view};
ghost use Rattle.expand_model.specs.Scope as scope;
ghost use Rattle.expand_model.specs.Finish as last;

use crate::members::has;
use ld_tree::{Members, Tree};

/// Whether a value is null.
pub fn is_null(value: &Tree) -> bool
    ensures { result ≡ scope.is_null (view value.now) }
{
    matches!(value, Tree::Null)
}

/// Whether a value is a text.
pub fn is_text(value: &Tree) -> bool
    ensures { result ≡ scope.is_text (view value.now) }
{
    matches!(value, Tree::Str(_))
}

/// Whether a value is a value object (JSON-LD 1.1, section 4.2.1).
#[tactic(auto, using(crate::proofs::Puts::listed))]
pub fn is_value_object(value: &Tree) -> bool
    ensures { result ≡ scope.is_value_object (view value.now) }
{
    match value {
        Tree::Map(members) => has(members, "@value"),
        _ => false,
    }
}

/// Whether a value is a list object (JSON-LD 1.1, section 4.3.1).
#[tactic(auto, using(crate::proofs::Puts::listed))]
pub fn is_list_object(value: &Tree) -> bool
    ensures { result ≡ scope.is_list_object (view value.now) }
{
    match value {
        Tree::Map(members) => has(members, "@list"),
        _ => false,
    }
}

/// Whether a value is a node object: any map but a value object, a list object or a set object.
#[tactic(auto, using(crate::proofs::Puts::listed))]
pub fn is_node_object(value: &Tree) -> bool
    ensures { result ≡ scope.is_node_object (view value.now) }
{
    match value {
        Tree::Map(members) => {
            !(has(members, "@value") || has(members, "@list") || has(members, "@set"))
        }
        _ => false,
    }
}

/// Whether a map has one entry, which is at this key.
pub fn is_lone(members: &Members, key: &str) -> bool
    ensures { result ≡ last.is_lone key.now members.now }
{
    if members.len() != 1 {
        return false;
    }
    match members.at(0) {
        None => false,
        Some((name, _)) => name.as_str() == key,
    }
}
