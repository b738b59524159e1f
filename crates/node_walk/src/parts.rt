// What the keywords of a map have, taken out of it.
ghost use Rattle.std.specs.Prelude.{◌≡◌, ◌≤◌, ◌∷◌, [], is_some};
ghost use Rattle.std.specs.Option.{option_map};
ghost use Rattle.ld_model.specs.Tree.{members_of, members_weight, member_at};
ghost use Rattle.ld_model.specs.Keys.{id_key, graph_key};
ghost use Rattle.ld_tree.specs.View.{view};
ghost use Rattle.node_model.specs.Keys.{type_key, list_key, index_key, reverse_key, included_key};
ghost use Rattle.node_model.specs.Walk.{text_in};
ghost use Rattle.node_walk.specs.Found.{IsLeft, found_weight, members_in};

use ld_tree::{Members, Text, Tree};
use std::alloc::Global;

/// Whether a map has a key.
pub(crate) fn has_key(members: &Members, key: &str) -> bool
    ensures { result ≡ is_some (member_at key.now members.now) }
{
    members.get(key).is_some()
}

/// What a list object has at `@list`.
pub(crate) fn list_of(mut members: Members) -> Option<Tree>
    ensures value { option_map view result ≡ member_at list_key members }
    ensures light { found_weight (option_map view result) ≤ members_weight (members_of members) }
{
    members.take("@list")
}

/// What says which node a node object is.
#[derive(Drop)]
pub(crate) struct Head {
    pub(crate) types: Option<Tree>,
    pub(crate) id: Option<Text>,
    pub(crate) index: Option<Text>,
}

/// Takes the types, the id and the index out of a node object.
pub(crate) fn take_head(members: &mut Members) -> Head
    ensures types { option_map view result.types ≡ member_at type_key members.old }
    ensures id { result.id ≡ text_in (member_at id_key members.old) }
    ensures index { result.index ≡ text_in (member_at index_key members.old) }
    ensures left { IsLeft (index_key ∷ id_key ∷ type_key ∷ []) members.old members.new }
{
    let types = members.take("@type");
    let id = text_of(members.take("@id"));
    let index = text_of(members.take("@index"));
    Head { types, id, index }
}

/// What stands in a node object.
#[derive(Drop)]
pub(crate) struct Inside {
    pub(crate) turned: Members,
    pub(crate) graph: Option<Tree>,
    pub(crate) included: Option<Tree>,
    pub(crate) properties: Members,
}

/// A node object as what its keywords have and its properties. (Keywords that are left among the properties are passed over there.)
pub(crate) fn inside_of(alloc: Global, mut members: Members) -> Inside
    ensures turned { members_of result.turned ≡ members_in (member_at reverse_key members) }
    ensures graph { option_map view result.graph ≡ member_at graph_key members }
    ensures included { option_map view result.included ≡ member_at included_key members }
    ensures left { IsLeft (included_key ∷ graph_key ∷ reverse_key ∷ []) members result.properties }
    ensures light_turned { members_weight (members_of result.turned) ≤ members_weight (members_of members) }
    ensures light_graph { found_weight (option_map view result.graph) ≤ members_weight (members_of members) }
    ensures light_included { found_weight (option_map view result.included) ≤ members_weight (members_of members) }
{
    let turned = map_of(alloc, members.take("@reverse"));
    let graph = members.take("@graph");
    let included = members.take("@included");
    Inside {
        turned,
        graph,
        included,
        properties: members,
    }
}

/// The text that a key has; None where it has something else.
fn text_of(found: Option<Tree>) -> Option<Text>
    ensures { result ≡ text_in (option_map view found) }
{
    match found {
        Some(tree) => match tree {
            Tree::Str(text) => Some(text),
            _ => None,
        },
        None => None,
    }
}

/// The map that a key has; an empty one where it has something else.
fn map_of(alloc: Global, found: Option<Tree>) -> Members
    ensures { members_of result ≡ members_in (option_map view found) }
{
    match found {
        Some(tree) => match tree {
            Tree::Map(members) => members,
            _ => Members::new(alloc),
        },
        None => Members::new(alloc),
    }
}
