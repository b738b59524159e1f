// The terms that a value of `@type` names.
ghost use Rattle.std.specs.Prelude.{◌≡◌, ◌++◌, [], ◌∷◌, map, IfOk, OnOk};
ghost use Rattle.std.specs.List.{filter_map, list_any};
ghost use Rattle.ctx_types.specs.ContextView.{settings_view};
ghost use Rattle.expand_model.specs.Contexts.{ascending, text_in};
ghost use Rattle.ld_tree.specs.View.{view};
ghost use Rattle.expand_contexts.specs.Types.{is_scoped};

use crate::scoped::has_scoped;
use ctx_types::ActiveContext;
use ld_tree::{Tree, Trees};
use std::alloc::{AllocError, Global};

/// Whether a type among these has a scoped context.
pub(crate) fn have_scoped(types: &ActiveContext, items: &Trees) -> bool
    ensures { result ≡ list_any (is_scoped (settings_view types.now)) items.now }
{
    for item in items {
        if is_scoped(types, item) {
            return true;
        }
    }
    false
}

/// Whether a value is a text whose definition has a scoped context.
pub(crate) fn is_scoped(types: &ActiveContext, item: &Tree) -> bool
    ensures { result ≡ is_scoped (settings_view types.now) (view item.now) }
{
    match item {
        Tree::Str(term) => has_scoped(types.terms.get(term.as_str())),
        _ => false,
    }
}

/// The texts among some values, in the order of their bytes.
pub(crate) fn sorted_terms(alloc: Global, items: &Trees) -> Result<Vec<&str>, AllocError>
    ensures { IfOk result (λ v. map (λ t. t.now) v.items ≡ ascending (filter_map text_in items.now)) }
{
    let mut terms = Vec::new(alloc);
    for item in items {
        push_term(&mut terms, item)?;
    }
    terms.sort()?;
    Ok(terms)
}

fn push_term<'a>(terms: &mut Vec<&'a str>, item: &'a Tree) -> Result<(), AllocError>
    ensures { OnOk result (map (λ t. t.now) terms.new.items ≡ map (λ t. t.now) terms.old.items ++ filter_map text_in (view item.now ∷ [])) }
{
    if let Tree::Str(term) = item {
        terms.push(term.as_str())?;
    }
    Ok(())
}
