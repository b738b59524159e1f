// What a value, and the entries of a map, are expanded with.
ghost use Rattle.std.specs.Prelude.{◌≡◌};
ghost use Rattle.std.specs.Option.{option_map};
ghost use Rattle.expand_model.specs.Entries as entries;
ghost use Rattle.ctx_types.specs.ContextView.{context_view};
ghost use Rattle.expand_model.specs.Scope.{definition_of};
ghost use Rattle.expand_types.specs.View.{definition_in, map_scope_view, scope_view, word_view};

use case_tables::Keyword;
use ctx_store::Store;
use ctx_types::{ActiveContext, TermDef};
use expand_model::Name;
use ld_text::Text;

/// What stays the same in the whole document.
#[derive(Clone, Copy)]
pub struct Options<'a> {
    /// The base URL of the document.
    pub base: Option<&'a Text>,
    /// The contexts that can be loaded.
    pub store: &'a Store,
}

/// What a value is expanded with.
#[derive(Clone, Copy)]
pub struct Scope<'a> {
    /// The active context.
    pub context: &'a ActiveContext,
    /// The active property; None is null.
    pub property: Option<&'a str>,
    /// The flag from map: the value stands in a map of indexes, ids or types.
    pub from_map: bool,
}

/// What the entries of a map are expanded with.
#[derive(Clone, Copy)]
pub struct MapScope<'a> {
    /// The active context.
    pub context: &'a ActiveContext,
    /// The type-scoped context, in which the values of `@type` are expanded.
    pub types: &'a ActiveContext,
    /// Whether the input type is `@json`.
    pub json: bool,
    /// The active property of the map; None is null.
    pub property: Option<&'a str>,
}

impl<'a> Scope<'a> {
    /// The definition of the active property; at the top of a graph there is none.
    pub fn definition(&self) -> Option<&'a TermDef>
        ensures { definition_in result ≡ definition_of (word_view self.now.property) (context_view self.now.context.now) }
    {
        match self.property {
            None => None,
            Some("@graph") => None,
            Some(property) => self.context.terms.get(property),
        }
    }
}

/// What the value of an entry is expanded with, whose key stands for `name` (JSON-LD 1.1 API, section 5.1.2, steps 13.4 and 13.9).
#[tactic(auto, unfolding(expand_model::specs::Entries::under))]
pub fn under<'a>(name: &Name, key: &'a str, scope: &MapScope<'a>) -> Scope<'a>
    ensures { scope_view result ≡ entries.under name.now key.now (map_scope_view scope.now) }
{
    Scope {
        context: scope.context,
        property: property_under(name, key, scope.property),
        from_map: false,
    }
}

/// The active property of the value of an entry.
fn property_under<'a>(name: &Name, key: &'a str, property: Option<&'a str>) -> Option<&'a str>
    ensures { word_view result ≡ entries.property_under name.now key.now (word_view property.entry) }
{
    match name {
        Name::Keyword(Keyword::Graph) => Some("@graph"),
        Name::Keyword(Keyword::Included) => None,
        Name::Keyword(Keyword::List) => property,
        Name::Keyword(Keyword::Set) => property,
        Name::Keyword(Keyword::Reverse) => Some("@reverse"),
        _ => Some(key),
    }
}
