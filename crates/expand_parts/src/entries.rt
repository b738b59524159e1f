// Entries of a map.
ghost use Rattle.std.specs.Prelude.{◌≡◌};
ghost use Rattle.ld_tree.specs.View.{view};
ghost use Rattle.expand_model.specs.Keywords as keywords;
ghost use Rattle.expand_model.specs.Rules as rules;
ghost use Rattle.expand_types.specs.Answers.{Answers};
ghost use Rattle.expand_types.specs.View.{definition_in, map_scope_view, word_view};

use crate::keywords::{add_keyword, begin_keyword, tell_keyword};
use crate::properties::{add_property, tell_property};
use ctx_types::TermDef;
use expand_entries::finish_entries;
use expand_types::{MapScope, Name, PartStop};
use expand_values::Draft;
use ld_tree::Tree;
use std::alloc::Global;

/// Tells an entry whose value isn't expanded (JSON-LD 1.1 API, section 5.1.2, steps 13.3, 13.4, 13.6 and 13.7).
pub fn tell(
    alloc: Global,
    scope: &MapScope<'_>,
    definition: Option<&TermDef>,
    name: &Name,
    value: &Tree,
    made: Draft,
) -> Result<Draft, PartStop>
    ensures { Answers result (λ d. d) (rules.told name.now (definition_in definition.entry) (view value.now) (map_scope_view scope.now) made) }
{
    let mut made = made;
    match name {
        Name::Dropped => Ok(made),
        Name::Keyword(word) => {
            tell_keyword(alloc, scope, *word, value, &mut made)?;
            Ok(made)
        }
        Name::Property(property) => {
            tell_property(alloc, scope.context, definition, property, value, &mut made)?;
            Ok(made)
        }
    }
}

/// Whether an entry may stand in the map: steps 13.4.1 and 13.4.2. It takes no memory.
#[tactic(auto, unfolding(expand_model::specs::Keywords::begun))]
pub fn begin(property: Option<&str>, name: &Name, made: &Draft) -> Result<(), PartStop>
    ensures { Answers result (λ x. x) (keywords.begun (word_view property.entry) name.now made.now) }
{
    match name {
        Name::Dropped => Ok(()),
        Name::Keyword(word) => begin_keyword(property, *word, made),
        Name::Property(_) => Ok(()),
    }
}

/// Adds the outcome of an entry's value (steps 13.4 and 13.10 to 13.14).
pub fn add(
    alloc: Global,
    definition: Option<&TermDef>,
    name: Name,
    outcome: Tree,
    made: Draft,
) -> Result<Draft, PartStop>
    ensures { Answers result (λ d. d) (rules.added name (definition_in definition.entry) (view outcome) made) }
{
    let mut made = made;
    match name {
        Name::Dropped => Ok(made),
        Name::Keyword(word) => {
            add_keyword(alloc, word, outcome, &mut made)?;
            Ok(made)
        }
        Name::Property(property) => {
            add_property(alloc, definition, property, outcome, &mut made)?;
            Ok(made)
        }
    }
}

/// What a map comes to under its active property (steps 15 to 20); null where it is dropped.
pub fn finish(alloc: Global, made: Draft, property: Option<&str>) -> Result<Tree, PartStop>
    ensures { Answers result view (rules.finished made (word_view property.entry)) }
{
    let entries = made.into_members(alloc)?;
    match finish_entries(alloc, entries, property)? {
        None => Ok(Tree::Null),
        Some(value) => Ok(value),
    }
}
