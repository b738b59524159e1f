// The last contexts of an array's items.
ghost use Rattle.std.specs.Prelude.{◌≡◌, IfOk, IsTrue, Some};
ghost use Rattle.ctx_entries.specs.View.{tree_view};
ghost use Rattle.ctx_types.specs.Same.{same_option};
ghost use Rattle.ld_model.specs.Tree.{same_tree};
ghost use Rattle.expand_model.specs.Contexts.{in_map};
ghost use Rattle.expand_model.specs.Scope.{Options as OptionsData, Scope as ScopeData};
ghost use Rattle.expand_types.specs.Answers.{Answers};
ghost use Rattle.expand_types.specs.View.{options_view, scope_view};
ghost use Rattle.expand_contexts.specs.Memo.{IsLast, MayRecall, MayRecallLast, last_view};
ghost use Rattle.expand_contexts.specs.View.{active_view};

use crate::active::Active;
use crate::scoped::{left, made_in_map};
use ctx_types::ActiveContext;
use expand_types::{Options, PartStop, Scope};
use ld_tree::Tree;
use std::alloc::{AllocError, Global};

/// The last value of `@type` whose types made something of the type-scoped context.
#[derive(Drop)]
pub struct Typed<'a> {
    /// The value of `@type`.
    pub(crate) value: &'a Tree,
    /// What its types made.
    pub(crate) context: ActiveContext,
}

/// How the last item's type-scoped context was made of the array's active context.
#[derive(Drop)]
pub struct Last<'a> {
    /// Whether the active context was left.
    pub(crate) leaves: bool,
    /// The map's own `@context`.
    pub(crate) local: Option<&'a Tree>,
    /// What was made; nothing where no context was processed.
    pub(crate) made: Option<ActiveContext>,
    /// What types made of that, where they made something.
    pub(crate) typed: Option<Typed<'a>>,
}

/// What a loop over the items of an array remembers.
pub struct Memo<'a> {
    pub(crate) last: Option<Last<'a>>,
}

// By hand, so that what is proved of a caller sees one drop, and not one for each value of a context.
impl<'a> Drop for Memo<'a> {
    fn drop(self) {
        let Memo { last: _ } = self;
    }
}

impl<'a> Memo<'a> {
    /// Nothing is remembered.
    pub fn new() -> Memo<'a>
        ensures { (o : OptionsData) → (a : ScopeData) → MayRecall o a result }
    {
        Memo { last: None }
    }

    pub(crate) fn keep(&mut self, last: Last<'a>)
        ensures { self.new.last ≡ Some last.entry }
    {
        self.last = Some(last);
    }
}

impl<'a> Last<'a> {
    /// The type-scoped context. One that was made is copied, in constant time.
    pub(crate) fn context<'s>(
        &self,
        alloc: Global,
        scope: &Scope<'s>,
    ) -> Result<Active<'s>, AllocError>
        ensures { IfOk result (λ c. active_view c ≡ last_view (scope_view scope.now) self.now) }
    {
        match &self.made {
            None => Ok(Active::Lent(left(self.leaves, scope.context))),
            Some(made) => Ok(Active::Own(made.copy(alloc)?)),
        }
    }

    /// Whether it was made by leaving the active context or not, and by this `@context`.
    fn is_by(&self, leaves: bool, local: Option<&Tree>) -> bool
        ensures leaves { IsTrue result → self.now.leaves ≡ leaves }
        ensures local { IsTrue result → tree_view self.now.local ≡ tree_view local.entry }
    {
        if self.leaves != leaves {
            return false;
        }
        same_local(self.local, local)
    }
}

fn same_local(a: Option<&Tree>, b: Option<&Tree>) -> bool
    ensures { result ≡ same_option same_tree (tree_view a.entry) (tree_view b.entry) }
{
    match a {
        None => b.is_none(),
        Some(a) => match b {
            None => false,
            Some(b) => a.same(b),
        },
    }
}

/// How a map's type-scoped context is made of the array's active context: as the last item's was, where it was made in the same way.
pub(crate) fn recall<'x>(
    alloc: Global,
    options: &Options<'_>,
    scope: &Scope<'_>,
    last: Option<Last<'x>>,
    leaves: bool,
    local: Option<&'x Tree>,
) -> Result<Last<'x>, PartStop>
    requires { MayRecallLast (options_view options.now) (scope_view scope.now) last }
    ensures last { IfOk result (λ l. IsLast (options_view options.now) (scope_view scope.now) l) }
    ensures made { Answers result (last_view (scope_view scope.now)) (in_map (options_view options.now) (scope_view scope.now) leaves (tree_view local.entry)) }
{
    if let Some(last) = last {
        if last.is_by(leaves, local) {
            return Ok(last);
        }
    }
    let made = made_in_map(alloc, options, scope, leaves, local)?;
    Ok(Last {
        leaves,
        local,
        made,
        typed: None,
    })
}
