// Members that are built at once from pairs in any order.
ghost use Rattle.std.specs.Prelude.{◌≡◌, IfOk};
ghost use Rattle.ld_model.specs.Tree.{byte_order};
ghost use Rattle.ld_tree.specs.View.{members_view};
ghost use Rattle.ld_tree.specs.Built.{built, ascend, is_first_after};

use crate::value::{Members, Tree};
use ld_text::Text;
use std::alloc::AllocError;
use std::cmp::Ordering;

/// The pairs in the order of their keys. Those with one key keep their order.
pub(crate) fn sorted(pairs: Vec<(Text, Tree)>) -> Result<Vec<(Text, Tree)>, AllocError>
    ensures { IfOk result (λ ps. built (members_view ps.items) ≡ built (members_view pairs.items)) }
{
    let mut pairs = pairs;
    pairs.sort_by(|a, b| key_order(a, b))?;
    Ok(pairs)
}

fn key_order(a: &(Text, Tree), b: &(Text, Tree)) -> Ordering
    ensures { result ≡ byte_order a.now.0 b.now.0 }
{
    a.0.compare(b.0.as_str())
}

/// The members that sorted pairs make, of which some have one key: the last of these stays.
pub(crate) fn last_of_each(pairs: Vec<(Text, Tree)>) -> Result<Members, AllocError>
    ensures { IfOk result (λ ms. ms ≡ built (members_view pairs.items)) }
{
    let alloc = pairs.allocator().clone()?;
    let mut members = Members::with_capacity(alloc, count_of_keys(pairs.as_slice()))?;
    for (key, tree) in pairs {
        members.set(key, tree)?;
    }
    Ok(members)
}

/// How many keys sorted pairs have, so that room is made for no more.
fn count_of_keys(pairs: &[(Text, Tree)]) -> usize {
    let mut count = 0usize;
    let mut rest = pairs;
    while let [first, tail @ ..] = rest {
        if comes_before(first, tail) {
            count = count.saturating_add(1);
        }
        rest = tail;
    }
    count
}

/// Whether each key comes before the next.
pub(crate) fn are_ascending(pairs: &[(Text, Tree)]) -> bool
    ensures { result ≡ ascend (members_view pairs.now) }
{
    let mut rest = pairs;
    while let [first, tail @ ..] = rest {
        if !comes_before(first, tail) {
            return false;
        }
        rest = tail;
    }
    true
}

fn comes_before(first: &(Text, Tree), tail: &[(Text, Tree)]) -> bool
    ensures { result ≡ is_first_after first.now.0 (members_view tail.now) }
{
    match tail.first() {
        Some(second) => key_order(first, second).is_lt(),
        None => true,
    }
}
