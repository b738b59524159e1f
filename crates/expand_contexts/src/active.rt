// A context that is lent, or made here.
ghost use Rattle.std.specs.Prelude.{◌≡◌};
ghost use Rattle.ctx_types.specs.ContextView.{context_view};
ghost use Rattle.expand_contexts.specs.View.{active_view, made_view};

use ctx_types::ActiveContext;

/// An active context: one that stands elsewhere, or one that was made for a value alone.
pub enum Active<'a> {
    /// It stands elsewhere.
    Lent(&'a ActiveContext),
    /// It was made here.
    Own(ActiveContext),
}

// By hand, so that what is proved of a caller sees one drop, and not one for each value of a context.
impl<'a> Drop for Active<'a> {
    fn drop(self) {
        match self {
            Active::Lent(_) => {}
            Active::Own(_) => {}
        }
    }
}

impl<'a> Active<'a> {
    /// The context.
    pub fn get(&self) -> &ActiveContext
        ensures { context_view result.now ≡ active_view self.now }
    {
        match self {
            Active::Lent(context) => context,
            Active::Own(context) => context,
        }
    }
}

/// What was made of a context, or the context itself where nothing was.
pub(crate) fn made_or<'a>(
    made: &'a Option<ActiveContext>,
    context: &'a ActiveContext,
) -> &'a ActiveContext
    ensures { context_view result.now ≡ made_view made.now (context_view context.now) }
{
    match made {
        None => context,
        Some(made) => made,
    }
}
