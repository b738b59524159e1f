// Whole documents, and ranges of items.
ghost use Rattle.std.specs.Prelude.{◌≡◌, ◌+◌, ◌<◌, ◌^◌, [], length};
ghost use Rattle.ld_model.specs.Tree.{trees_of};
ghost use Rattle.ld_tree.specs.View.{trees_view, view};
ghost use Rattle.ctx_types.specs.ContextView.{context_view};
ghost use Rattle.expand_model.specs.Expand as expand;
ghost use Rattle.expand_model.specs.Over as over;
ghost use Rattle.expand_types.specs.View.{options_view, word_view};
ghost use Rattle.tree_expand.specs.Outcomes.{ComesTo, Gives};

use crate::at::At;
use crate::ranges::{NoRanges, Ranges};
use crate::recursion::{element, items as items_of};
use crate::stop::ExpandStop;
use ctx_store::Store;
use ctx_types::ActiveContext;
use expand_parts::whole_items;
use expand_types::{Options, Scope, Trail};
use ld_json::Place;
use ld_text::Text;
use ld_tree::{Tree, Trees};
use std::alloc::Global;

/// Expands a document (JSON-LD 1.1 API, sections 5.1 and 9.1.2, expand): gives the items of its expanded form. `base` is its base URL; the
/// contexts that it names come from `store` alone.
///
/// # Errors
///
/// - `Refused` exactly where expansion fails, with the code and the place of the first error that its traversal meets, in ascending order
///   of keys.
/// - `OutOfMemory` where memory is refused, or context processing has too many calls under way.
pub fn expand_document<'a>(
    alloc: Global,
    tree: &Tree,
    base: Option<&'a Text>,
    store: &'a Store,
) -> Result<Trees, ExpandStop>
    ensures { ComesTo result (λ ts. ts) (expand.document (record { base = word_view base.entry; contexts = store.now }) (view tree.now)) }
{
    let options = Options { base, store };
    let mut ranges = NoRanges {};
    document_over(alloc, &options, &mut ranges, tree)
}

/// Expands a document, whose ranges may be answered from elsewhere, with what `ranges` answers for each item that is asked for.
///
/// # Errors
///
/// - `Refused` where expansion fails: the first error in ascending order of keys, or the first one that `ranges` answers.
/// - `OutOfMemory` where memory is refused, or context processing has too many calls under way.
#[tactic(auto, unfolding(expand_model::specs::Over::document_over))]
pub fn document_over<R: Ranges>(
    alloc: Global,
    options: &Options<'_>,
    ranges: &mut R,
    tree: &Tree,
) -> Result<Trees, ExpandStop>
    ensures { Gives result (λ ts. ts) ranges.new
        (over.document_over (options_view options.now) R.asked R.settles (view tree.now) ranges.old) }
{
    let context = ActiveContext::initial(alloc, options.base)?;
    let root = Place::new(alloc);
    let trail = Trail::From(&root);
    let scope = Scope {
        context: &context,
        property: None,
        from_map: false,
    };
    let at = At {
        scope,
        trail: &trail,
    };
    let outcome = element(alloc, options, ranges, &at, tree)?;
    Ok(whole_items(alloc, outcome)?)
}

/// Expands some items of the array at `place`, the first of which has the number `first`, under a property (JSON-LD 1.1 API, section 5.1.2,
/// step 5). `context`, `property` and `from_map` are what the array is expanded with.
///
/// # Errors
///
/// - `Refused` exactly where expansion of one of the items fails, with the code and the place of the first error.
/// - `OutOfMemory` where memory is refused, or context processing has too many calls under way.
pub fn expand_range<'a>(
    alloc: Global,
    context: &'a ActiveContext,
    property: Option<&'a Text>,
    items: &[Tree],
    first: u64,
    from_map: bool,
    base: Option<&'a Text>,
    store: &'a Store,
    place: &'a Place,
) -> Result<Trees, ExpandStop>
    requires { first + length items.now < 2 ^ 64 }
    ensures { ComesTo result (λ ts. ts) (expand.items (record { base = word_view base.entry; contexts = store.now })
        (trees_of (trees_view items.now)) first
        (record { scope = record { context = context_view context.now; property = word_view property.entry; from_map = from_map }; place = place.now }) []) }
{
    let options = Options { base, store };
    let trail = Trail::From(&*place);
    let scope = Scope {
        context: &*context,
        property: word(property),
        from_map,
    };
    let at = At {
        scope,
        trail: &trail,
    };
    let mut ranges = NoRanges {};
    items_of(alloc, &options, &mut ranges, &at, items, first)
}

/// A text that may be absent, as a string.
fn word(text: Option<&Text>) -> Option<&str>
    ensures { word_view result ≡ word_view text.entry }
{
    match text {
        None => None,
        Some(text) => Some(text.as_str()),
    }
}
