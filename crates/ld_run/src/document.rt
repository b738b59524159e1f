// From the bytes of a document to the items that a command gives of it.
ghost use Rattle.std.specs.Prelude.{◌≡◌, Ok, IfOk, MatchResult};
ghost use Rattle.ld_tree.specs.View.{view};
ghost use Rattle.ld_json.specs.Read.{reading};
ghost use Rattle.ld_run.specs.Out.{parsed, expanded, flattened, given, items_for, text_line};
ghost use Rattle.ld_run.specs.Stops.{IsStopOf, Answers};

use crate::stop::Stop;
use crate::words::{Command, Order};
use ctx_store::Store;
use flatten_out::into_flattened;
use ld_json::{Text, Tree, Trees, read_tree, text_of};
use node_parts::node_map_by_parts;
use std::alloc::{AllocError, Global};
use std::mem;
use subtree_cut::expand_by_weight;

/// The items that an order gives for a document, with the contexts of the store. What a stage no longer needs is let go before the
/// next one grows: the bytes once the tree stands, the tree and the store once the items are expanded.
pub(crate) fn items_for(
    alloc: Global,
    order: Order,
    store: Store,
    bytes: Vec<u8>,
) -> Result<Trees, Stop>
    ensures { Answers result (items_for order store bytes.items) }
{
    let weight = order.weight();
    let Order { command, base, .. } = order;
    let items = expanded(alloc, base, weight, store, bytes)?;
    given(alloc, command, weight, items)
}

/// The compact text of an array of these items, with a line feed.
pub(crate) fn text_line(alloc: Global, items: Trees) -> Result<Vec<u8>, AllocError>
    ensures { IfOk result (λ v. v.items ≡ text_line items) }
{
    let items = Tree::Items(items);
    let mut text = text_of(alloc, &items)?;
    text.push(b'\n')?;
    mem::forget(items);
    Ok(text)
}

/// The expanded items of a document (JSON-LD 1.1 API, section 9.1.2, expand), which is cut by this weight.
fn expanded(
    alloc: Global,
    base: Option<Text>,
    weight: u64,
    store: Store,
    bytes: Vec<u8>,
) -> Result<Trees, Stop>
    ensures { Answers result (expanded base store bytes.items) }
{
    let tree = parsed(alloc, bytes)?;
    let items = expand_by_weight(alloc, &tree, base.as_ref(), &store, weight)?;
    Ok(items)
}

/// The tree that a document reads as. Its bytes are let go.
fn parsed(alloc: Global, bytes: Vec<u8>) -> Result<Tree, Stop>
    ensures { MatchResult result (λ t. parsed (reading bytes.items) ≡ Ok (view t)) (λ stop. IsStopOf stop (parsed (reading bytes.items))) }
{
    let tree = read_tree(alloc, bytes.as_slice())?;
    Ok(tree)
}

/// What a command gives of expanded items.
fn given(alloc: Global, command: Command, weight: u64, items: Trees) -> Result<Trees, Stop>
    ensures { Answers result (given command items) }
{
    match command {
        Command::Flatten => flattened(alloc, weight, items),
        Command::Expand => Ok(items),
    }
}

/// The flattened form of expanded items (JSON-LD 1.1 API, section 7.1). Their node map is made of the sums of the chunks into which they are cut by
/// this weight. They are let go once they are summed, and the node map is taken apart for its nodes.
fn flattened(alloc: Global, weight: u64, items: Trees) -> Result<Trees, Stop>
    ensures { Answers result (flattened items) }
{
    let (map, _) = node_map_by_parts(alloc, items, weight)?;
    let nodes = into_flattened(alloc, map)?;
    Ok(nodes)
}
