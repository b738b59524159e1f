// Reading a text by the value that `serde_json` makes of it.
ghost use Rattle.std.specs.Prelude.{◌≡◌, true, IfOk, MatchResult, map};
ghost use Rattle.serde_json.specs.View.{number_view};
ghost use Rattle.ld_tree.specs.View.{view};
ghost use Rattle.ld_json.specs.Numbers.{are_accepted};
ghost use Rattle.ld_json.specs.Read.{reading, reads, Refuses, SaysOfNumbers, number_tree, value_tree, value_member};

use crate::marks::misplaced;
use crate::numbers::refused_number;
use crate::reading::ReadRefusal;
use ld_tree::{Members, Text, Tree, Trees};
use serde_json::{Map, Number, Value};
use std::alloc::{AllocError, Global};

/// As `read_tree`.
pub(crate) fn read_by_value(alloc: Global, bytes: &[u8]) -> Result<Tree, ReadRefusal>
    ensures answer { MatchResult result (λ t. reading bytes.now ≡ reads (view t))
        (λ e. Refuses e (reading bytes.now)) }
    ensures numbers { MatchResult result (λ _. are_accepted bytes.now ≡ true)
        (λ e. SaysOfNumbers e (are_accepted bytes.now)) }
{
    let value = match Value::from_slice(alloc, bytes) {
        Ok(value) => value,
        Err(error) => {
            if error.is_memory() {
                return Err(ReadRefusal::OutOfMemory);
            }
            return Err(ReadRefusal::Syntax);
        }
    };
    if let Some(at) = refused_number(bytes) {
        return Err(ReadRefusal::Number { at });
    }
    let tree = tree(alloc, value)?;
    match misplaced(alloc, &tree)? {
        Some(place) => Err(ReadRefusal::VersionNumber { place }),
        None => Ok(tree),
    }
}

// What was read is taken apart as it is converted, so that both never stand whole.
#[cycle(tree)]
fn tree(alloc: Global, value: Value) -> Result<Tree, AllocError>
    ensures { IfOk result (λ t. view t ≡ value_tree value) }
{
    match value {
        Value::Null => Ok(Tree::Null),
        Value::Bool(truth) => Ok(Tree::Truth(truth)),
        Value::Number(number) => Ok(number_of(&number)),
        Value::String(string) => Ok(Tree::Str(Text::from_string(string)?)),
        Value::Array(values) => Ok(Tree::Items(trees(alloc, values)?)),
        Value::Object(object) => Ok(Tree::Map(members(alloc, object)?)),
    }
}

#[cycle(tree)]
fn trees(alloc: Global, values: Vec<Value>) -> Result<Trees, AllocError>
    ensures { IfOk result (λ ts. ts ≡ map value_tree values.items) }
{
    let mut trees = Trees::with_capacity(alloc, values.len())?;
    for value in values {
        trees.push(tree(alloc, value)?)?;
    }
    Ok(trees)
}

#[cycle(tree)]
fn members(alloc: Global, object: Map<String, Value>) -> Result<Members, AllocError>
    ensures { IfOk result (λ ms. ms ≡ map value_member object.entries) }
{
    let mut members = Members::with_capacity(alloc, object.len())?;
    for (key, value) in object {
        members.set(Text::from_string(key)?, tree(alloc, value)?)?;
    }
    Ok(members)
}

/// The greatest magnitude of a whole number that is read as such: 2^53.
const GREATEST_WHOLE: i64 = 9_007_199_254_740_992;

pub(crate) fn number_of(number: &Number) -> Tree
    ensures { view result ≡ number_tree (number_view number.now) }
{
    match number.as_i64() {
        Some(whole) => if whole >= -GREATEST_WHOLE && whole <= GREATEST_WHOLE {
            Tree::Whole(whole)
        } else {
            Tree::OneOne
        },
        None => Tree::OneOne,
    }
}
