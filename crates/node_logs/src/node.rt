// What was told of a node.
ghost use Rattle.std.specs.Prelude.{◌≡◌, ℕ, List, [], ◌∷◌, ◌++◌, true, OnOk, IfOk};
ghost use Rattle.ld_model.specs.Tree as trees;
ghost use Rattle.ld_tree.specs.View.{view};
ghost use Rattle.node_model.specs.Maps.{MapOf};
ghost use Rattle.node_model.specs.NodeMap as model;
ghost use Rattle.node_model.specs.NodeMap.{with_entries, told};
ghost use Rattle.node_logs.specs.Log.{node_view, node_told, properties_told, change_of};

use ld_tree::{Text, Tree, Trees};
use std::alloc::{AllocError, Global};

/// What was told of a property without a break, in the order in which it was told.
#[derive(Drop)]
pub struct Told {
    /// The property.
    pub property: Text,
    /// The entries, in the order in which they were told.
    pub entries: Trees,
}

/// What was told of a node. Nothing is compared with what was told before: a type or an entry may be there twice, and a property
/// wherever it was told of.
#[derive(Drop)]
pub struct Node {
    /// The types.
    pub types: Vec<Text>,
    /// The index, where one was told.
    pub index: Option<Text>,
    /// The properties, with their entries.
    pub told: Vec<Told>,
}

/// What is told of a node.
#[derive(Drop)]
pub enum Telling<'a> {
    /// That it has this property.
    Property(&'a Text),
    /// An entry of a property.
    Entry(&'a Text, Tree),
    /// A type.
    TypeName(Text),
    /// Its index.
    Index(Text),
}

/// A node of which nothing was told.
pub(crate) fn new_node(alloc: Global) -> Node
    ensures nothing { (n : model.Node) → n ≡ node_told result n }
{
    Node {
        types: Vec::new(alloc),
        index: None,
        told: Vec::new(alloc),
    }
}

impl Node {
    /// Notes what is told of the node.
    pub(crate) fn tell(&mut self, alloc: Global, telling: Telling<'_>) -> Result<(), AllocError>
        ensures { OnOk result ((n : model.Node) → node_told self.new n ≡ change_of telling.entry (node_told self.old n)) }
    {
        match telling {
            Telling::Property(property) => {
                tell_property(alloc, &mut self.told, property)?;
                Ok(())
            }
            Telling::Entry(property, entry) => {
                tell_entry(alloc, &mut self.told, property, entry)?;
                Ok(())
            }
            Telling::TypeName(name) => {
                self.types.push(name)?;
                Ok(())
            }
            Telling::Index(index) => {
                self.index = Some(index);
                Ok(())
            }
        }
    }

    /// Whether nothing was told of the node but that it is there.
    fn is_new(&self) -> bool
        ensures { result ≡ true → node_view self.now ≡ model.new_node }
    {
        self.types.is_empty() && self.told.is_empty() && self.index.is_none()
    }

    /// Notes all that is in a log, behind what was told before.
    pub(crate) fn tell_all(&mut self, log: Node) -> Result<(), AllocError>
        ensures { OnOk result (node_view self.new ≡ node_told log (node_view self.old)) }
    {
        if self.is_new() {
            *self = log;
            return Ok(());
        }
        let Node { types, index, told } = log;
        append_types(&mut self.types, types)?;
        append_told(&mut self.told, told)?;
        if let Some(index) = index {
            self.index = Some(index);
        }
        Ok(())
    }
}

/// Types behind those that were told before.
fn append_types(types: &mut Vec<Text>, more: Vec<Text>) -> Result<(), AllocError>
    ensures { OnOk result (types.new.items ≡ types.old.items ++ more.items) }
{
    for name in more {
        types.push(name)?;
    }
    Ok(())
}

/// What was told of properties, behind what was told before.
fn append_told(log: &mut Vec<Told>, more: Vec<Told>) -> Result<(), AllocError>
    ensures { OnOk result (log.new.items ≡ log.old.items ++ more.items) }
{
    for told in more {
        log.push(told)?;
    }
    Ok(())
}

fn tell_property(alloc: Global, log: &mut Vec<Told>, property: &Text) -> Result<(), AllocError>
    ensures { OnOk result ((ps : MapOf (List trees.Tree)) → properties_told log.new.items ps ≡ with_entries property.now (λ es. es) (properties_told log.old.items ps)) }
{
    let last = last_told(alloc, log, property)?;
    log.push(last)?;
    Ok(())
}

fn tell_entry(
    alloc: Global,
    log: &mut Vec<Told>,
    property: &Text,
    entry: Tree,
) -> Result<(), AllocError>
    ensures { OnOk result ((ps : MapOf (List trees.Tree)) → properties_told log.new.items ps ≡ with_entries property.now (told (view entry)) (properties_told log.old.items ps)) }
{
    let mut last = last_told(alloc, log, property)?;
    last.entries.push(entry)?;
    log.push(last)?;
    Ok(())
}

/// What was told last, taken from the end of the log, where it was told of this property; else nothing, of this property.
fn last_told(alloc: Global, log: &mut Vec<Told>, property: &Text) -> Result<Told, AllocError>
    ensures property { IfOk result (λ t. t.property ≡ property.now) }
    ensures log { IfOk result (λ t. (ps : MapOf (List trees.Tree)) → properties_told (log.new.items ++ t ∷ []) ps ≡ with_entries property.now (λ es. es) (properties_told log.old.items ps)) }
{
    let Some(last) = log.pop() else {
        let told = nothing_told(alloc, property)?;
        return Ok(told);
    };
    if last.property.as_str() == property.as_str() {
        return Ok(last);
    }
    log.push(last)?;
    let told = nothing_told(alloc, property)?;
    Ok(told)
}

fn nothing_told(alloc: Global, property: &Text) -> Result<Told, AllocError>
    ensures property { IfOk result (λ t. t.property ≡ property.now) }
    ensures entries { IfOk result (λ t. t.entries ≡ []) }
{
    Ok(Told {
        property: property.copy()?,
        entries: Trees::new(alloc),
    })
}
