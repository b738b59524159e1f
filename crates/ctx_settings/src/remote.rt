// Contexts that are loaded from the store (JSON-LD 1.1 API, section 4.1.2, steps 5.2 and 5.6).
ghost use Rattle.std.specs.Prelude.{◌≡◌, ◌++◌, [], ◌∷◌, IfOk};
ghost use Rattle.ld_tree.specs.View.{view};
ghost use Rattle.ctx_entries.specs.Answers.{Answers};
ghost use Rattle.ctx_model.specs.Process as steps;
ghost use Rattle.ctx_entries.specs.View.{imports_view, text_view, tree_view};

use case_tables::Code;
use ctx_entries::ContextStop;
use ctx_store::{Loaded, Store};
use iri_ref::{has_scheme, resolve};
use ld_tree::{Members, Text, Tree};
use std::alloc::{AllocError, Global};

/// A text, resolved against a base, where there is one.
pub fn resolve_by(alloc: Global, base: Option<&Text>, text: &str) -> Result<Text, AllocError>
    ensures { IfOk result (λ iri. iri ≡ steps.resolved_by (text_view base.entry) text.now) }
{
    match base {
        Some(base) => resolve(alloc, base.as_str(), text),
        None => Text::new(alloc, text),
    }
}

/// The `@context` of the file behind an IRI.
pub fn load<'a>(store: &'a Store, iri: &str) -> Result<&'a Tree, ContextStop>
    ensures { Answers result (λ t. view t.now) (steps.loaded store.now iri.now) }
{
    let file = dereference(store, iri)?;
    context_entry(file)
}

fn dereference<'a>(store: &'a Store, iri: &str) -> Result<&'a Tree, ContextStop>
    ensures { Answers result (λ t. view t.now) (steps.dereferenced store.now iri.now) }
{
    if !has_scheme(iri) {
        return Err(ContextStop::Refused(Code::LoadingRemoteContextFailed));
    }
    match store.get(iri) {
        Some(loaded) => match loaded {
            Loaded::Readable(tree) => Ok(tree),
            Loaded::Unreadable => Err(ContextStop::Refused(Code::LoadingRemoteContextFailed)),
        },
        None => Err(ContextStop::Refused(Code::LoadingRemoteContextFailed)),
    }
}

fn context_entry(file: &Tree) -> Result<&Tree, ContextStop>
    ensures { Answers result (λ t. view t.now) (steps.context_entry (view file.now)) }
{
    match file {
        Tree::Map(entries) => match entries.get("@context") {
            Some(context) => Ok(context),
            None => Err(ContextStop::Refused(Code::InvalidRemoteContext)),
        },
        _ => Err(ContextStop::Refused(Code::InvalidRemoteContext)),
    }
}

/// The entries of the context that a map imports, where it imports one: step 5.6.
pub fn import<'a>(
    alloc: Global,
    store: &'a Store,
    base: Option<&Text>,
    value: Option<&Tree>,
) -> Result<Option<&'a Members>, ContextStop>
    ensures { Answers result imports_view (steps.imported store.now (text_view base.entry) (tree_view value.entry)) }
{
    match value {
        None => Ok(None),
        Some(value) => match value {
            Tree::Str(text) => {
                let iri = resolve_by(alloc, base, text.as_str())?;
                let context = load(store, iri.as_str())?;
                Ok(Some(importable(context)?))
            }
            _ => Err(ContextStop::Refused(Code::InvalidImportValue)),
        },
    }
}

fn importable(context: &Tree) -> Result<&Members, ContextStop>
    ensures { Answers result (λ ms. ms.now) (steps.importable (view context.now)) }
{
    match context {
        Tree::Map(entries) => without_import(entries),
        _ => Err(ContextStop::Refused(Code::InvalidRemoteContext)),
    }
}

fn without_import(entries: &Members) -> Result<&Members, ContextStop>
    ensures { Answers result (λ ms. ms.now) (steps.without_import entries.now) }
{
    match entries.get("@import") {
        Some(_) => Err(ContextStop::Refused(Code::InvalidContextEntry)),
        None => Ok(entries),
    }
}

/// The chain of remote contexts with one more.
pub fn chain_with(alloc: Global, remotes: &[Text], iri: &Text) -> Result<Vec<Text>, AllocError>
    ensures { IfOk result (λ chain. chain.items ≡ remotes.now ++ iri.now ∷ []) }
{
    let mut chain = Vec::with_capacity(alloc, remotes.len() + 1)?;
    for remote in remotes {
        chain.push(remote.copy()?)?;
    }
    chain.push(iri.copy()?)?;
    Ok(chain)
}
