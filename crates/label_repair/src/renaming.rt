// A part of a sum, with labels in place of names.
ghost use Rattle.std.specs.Prelude.{◌≡◌, ◌≤◌, ◌^◌, length, map as each, option_map, IfOk};
ghost use Rattle.std.specs.List.{AllByRecursion};
ghost use Rattle.ld_tree.specs.View.{view};
ghost use Rattle.node_logs.specs.Log.{node_view};
ghost use Rattle.op_laws.specs.Own.{HasOwn, EntryHasOwn};
ghost use Rattle.op_model.specs.Running.{label_in, entry_in};
ghost use Rattle.op_types.specs.View.{name_view, names_view, entry_view, entries_view};
ghost use Rattle.shard_model.specs.Own.{PartHasOwn};
ghost use Rattle.shard_model.specs.Renamed.{node_renamed};
ghost use Rattle.subtree_summary.specs.Log.{index_view, part_entry_view};
ghost use Rattle.label_repair.specs.Renaming.{IsOwn, told_renamed};

use crate::labels::Labels;
use ld_tree::{Text, Tree, Trees};
use node_logs::{Node, Told, list_object, reference};
use node_types::label_text;
use op_types::{Entries, Entry, Name};
use std::alloc::{AllocError, Global};
use subtree_summary::{IndexAt, PartEntry, Told as Said};

/// What a name is called in the node map: an IRI itself, and else the label with its number (JSON-LD 1.1 API, section 7.4).
pub(crate) fn label(alloc: Global, labels: &Labels, name: &Name) -> Result<Text, AllocError>
    requires { HasOwn labels.now (name_view name.now) }
    ensures { IfOk result (λ t. t ≡ label_in labels.now (name_view name.now)) }
{
    match name {
        Name::Iri(text) => Ok(text.copy()?),
        _ => Ok(label_text(alloc, labels.place(name))?),
    }
}

/// What was said of a node, under labels.
pub(crate) fn node_of(alloc: Global, labels: &Labels, entry: PartEntry) -> Result<Node, AllocError>
    requires own { PartHasOwn labels.now (part_entry_view entry) }
    requires few { length labels.now ≤ 2 ^ 64 }
    ensures { IfOk result (λ n. node_view n ≡ node_renamed labels.now (part_entry_view entry)) }
{
    let PartEntry { types, index, told } = entry;
    let types = types_of(alloc, labels, types)?;
    let told = told_of(alloc, labels, told)?;
    Ok(Node {
        types,
        index: text_of(index),
        told,
    })
}

fn text_of(index: Option<Box<IndexAt>>) -> Option<Text>
    ensures { result ≡ option_map (λ i. i.text) (index_view index) }
{
    match index {
        Some(at) => Some(Box::into_inner(at).index),
        None => None,
    }
}

fn types_of(alloc: Global, labels: &Labels, types: Vec<Name>) -> Result<Vec<Text>, AllocError>
    requires { AllByRecursion (HasOwn labels.now) (names_view types.items) }
    ensures { IfOk result (λ ts. ts.items ≡ each (label_in labels.now) (names_view types.items)) }
{
    let mut texts = Vec::with_capacity(alloc, types.len())?;
    for name in types {
        texts.push(label(alloc, labels, &name)?)?;
    }
    Ok(texts)
}

fn told_of(alloc: Global, labels: &Labels, told: Vec<Said>) -> Result<Vec<Told>, AllocError>
    requires { AllByRecursion (IsOwn labels.now) told.items }
    ensures { IfOk result (λ ts. ts.items ≡ each (told_renamed labels.now) told.items) }
{
    let mut renamed = Vec::with_capacity(alloc, told.len())?;
    for said in told {
        renamed.push(said_of(alloc, labels, said)?)?;
    }
    Ok(renamed)
}

/// What was said of a property, under labels.
fn said_of(alloc: Global, labels: &Labels, said: Said) -> Result<Told, AllocError>
    requires { IsOwn labels.now said }
    ensures { IfOk result (λ t. t ≡ told_renamed labels.now said) }
{
    let Said { property, entries } = said;
    let property = label(alloc, labels, &property)?;
    let entries = entries_of(alloc, labels, entries)?;
    Ok(Told { property, entries })
}

fn entries_of(alloc: Global, labels: &Labels, entries: Vec<Entry>) -> Result<Trees, AllocError>
    requires { AllByRecursion (EntryHasOwn labels.now) (entries_view entries.items) }
    ensures { IfOk result (λ ts. ts ≡ each (entry_in labels.now) (entries_view entries.items)) }
{
    let mut trees = Trees::with_capacity(alloc, entries.len())?;
    for entry in entries {
        trees.push(tree_of(alloc, labels, entry)?)?;
    }
    Ok(trees)
}

/// An entry, under labels.
#[cycle(entry)]
fn tree_of(alloc: Global, labels: &Labels, entry: Entry) -> Result<Tree, AllocError>
    requires { EntryHasOwn labels.now (entry_view entry) }
    ensures { IfOk result (λ t. view t ≡ entry_in labels.now (entry_view entry)) }
{
    match entry {
        Entry::Value(tree) => Ok(tree),
        Entry::Reference(name) => {
            let id = label(alloc, labels, &name)?;
            Ok(reference(alloc, &id)?)
        }
        Entry::List(entries) => {
            let items = items_of(alloc, labels, entries)?;
            Ok(list_object(alloc, items)?)
        }
    }
}

#[cycle(entry)]
fn items_of(alloc: Global, labels: &Labels, entries: Entries) -> Result<Trees, AllocError>
    requires { AllByRecursion (EntryHasOwn labels.now) entries }
    ensures { IfOk result (λ ts. ts ≡ each (entry_in labels.now) entries) }
{
    let mut trees = Trees::with_capacity(alloc, entries.len())?;
    for entry in entries {
        trees.push(tree_of(alloc, labels, entry)?)?;
    }
    Ok(trees)
}
