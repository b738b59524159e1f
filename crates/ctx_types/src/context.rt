// Active contexts.
ghost use Rattle.std.specs.Prelude.{◌≡◌, IfOk, IfSome};
ghost use Rattle.std.specs.Arc.{arc_value};
ghost use Rattle.std.specs.Option.{option_map};
ghost use Rattle.ctx_types.specs.Context.{initial};
ghost use Rattle.ctx_types.specs.ContextView.{context_view, contexts_view, earlier_of};

use crate::definition::Side;
use crate::terms::Terms;
use ld_tree::Text;
use std::alloc::{AllocError, Global};
use std::marker::Model;
use std::sync::Arc;

/// An active context (JSON-LD 1.1 API, section 4.1).
#[cycle(context)]
#[derive(Drop)]
pub struct ActiveContext {
    /// The base IRI, against which relative references are resolved.
    pub base: Option<Text>,
    /// The original base URL, which a null context goes back to.
    pub original: Option<Text>,
    /// The vocabulary mapping.
    pub vocab: Option<Text>,
    /// The default language.
    pub language: Option<Text>,
    /// The default base direction.
    pub side: Option<Side>,
    /// The term definitions.
    pub terms: Terms,
    /// The previous context, where this one is not propagated.
    pub previous: Option<Previous>,
}

/// A previous context, which several contexts may have. Contracts see it as its settings, and behind them those of the
/// contexts that came before it.
#[cycle(context)]
pub struct Previous {
    inner: Arc<ActiveContext, Global>,
}

impl Model for Previous {
    ghost use Rattle.std.specs.Prelude.{List, length};
    ghost use Rattle.std.specs.Arc.{arc_value};
    ghost use Rattle.std.specs.Coded.{coded_list};
    ghost use Rattle.std.proofs.Common.{arith, length-append};
    ghost use Rattle.ctx_types.specs.Context.{Settings};
    ghost use Rattle.ctx_types.specs.ContextCode.{settings_code};

    ghost Value = { List Settings };

    ghost coded = { coded_list settings_code };

    ghost use Rattle.ctx_types.specs.ContextView.{contexts_view};

    ghost view = { λ p. contexts_view (arc_value p.inner) };

    ghost size = { length };

    ghost size_decreases = { λ a h. Prim.grind (arith, length-append) };
}

// A loop, so that a long row of contexts is let go without a deep stack.
impl Drop for Previous {
    fn drop(mut self) {
        loop {
            match self {
                Previous { inner } => match previous_of_last(inner) {
                    None => return,
                    Some(previous) => self = previous,
                },
            }
        }
    }
}

// Gives up one owner of a context. Where it was the last, the context goes and its previous one is given.
fn previous_of_last(inner: Arc<ActiveContext, Global>) -> Option<Previous>
    ensures { IfSome result (λ p. earlier_of (arc_value inner).previous ≡ p) }
{
    let ActiveContext { previous, .. } = Arc::into_inner(inner)?;
    previous
}

impl Previous {
    /// The context, as one to come back to.
    pub fn new(alloc: Global, context: ActiveContext) -> Result<Previous, AllocError>
        ensures { IfOk result (λ p. p ≡ contexts_view context) }
    {
        Ok(Previous {
            inner: Arc::new(alloc, context)?,
        })
    }

    /// The same context for one owner more, in constant time.
    pub fn share(&self) -> Result<Previous, AllocError>
        ensures { IfOk result (λ p. p ≡ self.now) }
    {
        Ok(Previous {
            inner: Arc::try_clone(&self.inner)?,
        })
    }

    /// The context, borrowed.
    pub fn get(&self) -> &ActiveContext
        ensures { contexts_view result.now ≡ self.now }
    {
        &self.inner
    }
}

impl ActiveContext {
    /// A newly initialized active context (JSON-LD 1.1 API, section 4.1): the base URL is its base IRI and its original base
    /// URL, and it has nothing else.
    pub fn initial(alloc: Global, base: Option<&Text>) -> Result<ActiveContext, AllocError>
        ensures { IfOk result (λ c. context_view c ≡ initial (option_map (λ t. t.now) base.entry)) }
    {
        Ok(ActiveContext {
            base: lent_copy(base)?,
            original: lent_copy(base)?,
            vocab: None,
            language: None,
            side: None,
            terms: Terms::new(),
            previous: None,
        })
    }

    /// An equal context. The time that it takes does not grow with the number of terms or of previous contexts.
    pub fn copy(&self, alloc: Global) -> Result<ActiveContext, AllocError>
        ensures { IfOk result (λ c. context_view c ≡ context_view self.now) }
    {
        Ok(ActiveContext {
            base: own_copy(&self.base)?,
            original: own_copy(&self.original)?,
            vocab: own_copy(&self.vocab)?,
            language: own_copy(&self.language)?,
            side: self.side,
            terms: self.terms.copy()?,
            previous: share_previous(&self.previous)?,
        })
    }
}

fn lent_copy(text: Option<&Text>) -> Result<Option<Text>, AllocError>
    ensures { IfOk result (λ t. t ≡ option_map (λ s. s.now) text.entry) }
{
    match text {
        None => Ok(None),
        Some(text) => Ok(Some(text.copy()?)),
    }
}

fn own_copy(text: &Option<Text>) -> Result<Option<Text>, AllocError>
    ensures { IfOk result (λ t. t ≡ text.now) }
{
    match text {
        None => Ok(None),
        Some(text) => Ok(Some(text.copy()?)),
    }
}

fn share_previous(previous: &Option<Previous>) -> Result<Option<Previous>, AllocError>
    ensures { IfOk result (λ p. p ≡ previous.now) }
{
    match previous {
        None => Ok(None),
        Some(previous) => Ok(Some(previous.share()?)),
    }
}
