// Operations.
ghost use Rattle.std.specs.Prelude.{◌≡◌, [], ◌∷◌, ◌++◌, length, IfOk, OnOk, OnErr, slice_get};
ghost use Rattle.std.specs.Option.{option_map};
ghost use Rattle.ld_model.specs.Tree.{is_empty};
ghost use Rattle.op_types.specs.View.{entries_view, op_view, ops_view};

use crate::entry::{Entries, Entry};
use crate::name::Name;
use ld_tree::Text;
use std::alloc::{AllocError, Global};
use std::marker::Model;

/// What a step of node map generation does to the node map (JSON-LD 1.1 API, section 7.2), with names in place of labels.
#[derive(Drop)]
pub enum Op {
    /// A label of the document is needed: that of a type, or of a reverse property.
    UseLabel {
        /// The label.
        name: Name,
    },
    /// A graph, made where there is none (step 6.10).
    EnsureGraph {
        /// The graph.
        graph: Name,
    },
    /// A node of a graph, made where there is none (steps 6.3 and 6.4).
    EnsureNode {
        /// The graph.
        graph: Name,
        /// The node.
        node: Name,
    },
    /// A property of a node, with no entry where there is none (step 6.12.2).
    EnsureProperty {
        /// The graph.
        graph: Name,
        /// The node.
        node: Name,
        /// The property.
        property: Name,
    },
    /// A value or a reference under a property of a node, unless an equal one is there (steps 4.1.2, 6.5.2 and 6.6.2.2).
    AddEntry {
        /// The graph.
        graph: Name,
        /// The node.
        node: Name,
        /// The property.
        property: Name,
        /// The value or the reference.
        entry: Entry,
    },
    /// A list under a property of a node, whatever is there (step 5.3).
    AppendList {
        /// The graph.
        graph: Name,
        /// The node.
        node: Name,
        /// The property.
        property: Name,
        /// The list's entries.
        list: Entries,
    },
    /// A type of a node, unless it is there (step 6.7).
    AddType {
        /// The graph.
        graph: Name,
        /// The node.
        node: Name,
        /// The type.
        name: Name,
    },
    /// The index of a node (step 6.8).
    SetIndex {
        /// The graph.
        graph: Name,
        /// The node.
        node: Name,
        /// The index.
        index: Text,
    },
}

impl Op {
    /// An equal operation: trees are copied, and names share their texts.
    pub fn copy(&self, alloc: Global) -> Result<Op, AllocError>
        ensures { IfOk result (λ o. op_view o ≡ op_view self.now) }
    {
        match self {
            Op::UseLabel { name } => Ok(Op::UseLabel { name: name.copy()? }),
            Op::EnsureGraph { graph } => Ok(Op::EnsureGraph {
                graph: graph.copy()?,
            }),
            Op::EnsureNode { graph, node } => Ok(Op::EnsureNode {
                graph: graph.copy()?,
                node: node.copy()?,
            }),
            Op::EnsureProperty {
                graph,
                node,
                property,
            } => Ok(Op::EnsureProperty {
                graph: graph.copy()?,
                node: node.copy()?,
                property: property.copy()?,
            }),
            Op::AddEntry {
                graph,
                node,
                property,
                entry,
            } => Ok(Op::AddEntry {
                graph: graph.copy()?,
                node: node.copy()?,
                property: property.copy()?,
                entry: entry.copy(alloc)?,
            }),
            Op::AppendList {
                graph,
                node,
                property,
                list,
            } => Ok(Op::AppendList {
                graph: graph.copy()?,
                node: node.copy()?,
                property: property.copy()?,
                list: list.copy(alloc)?,
            }),
            Op::AddType { graph, node, name } => Ok(Op::AddType {
                graph: graph.copy()?,
                node: node.copy()?,
                name: name.copy()?,
            }),
            Op::SetIndex { graph, node, index } => Ok(Op::SetIndex {
                graph: graph.copy()?,
                node: node.copy()?,
                index: index.copy()?,
            }),
        }
    }
}

/// Operations, one after another.
#[derive(Drop)]
pub struct Ops {
    items: Vec<Op>,
}

impl Model for Ops {
    ghost use Rattle.std.specs.Prelude.{List};
    ghost use Rattle.std.specs.Coded.{coded_list};
    ghost use Rattle.op_model.specs.Ops.{Op as OpData};
    ghost use Rattle.op_types.specs.Codes.{op_code};

    ghost Value = { List OpData };

    ghost coded = { coded_list op_code };

    ghost use Rattle.op_types.specs.View.{ops_view};

    ghost view = { λ o. ops_view o.items.items };
}

impl Ops {
    /// No operations.
    pub fn new(alloc: Global) -> Ops
        ensures { result ≡ [] }
    {
        Ops {
            items: Vec::new(alloc),
        }
    }

    /// How many operations there are.
    pub fn len(&self) -> usize
        ensures { result ≡ length self.now }
    {
        self.items.len()
    }

    /// Whether there is no operation.
    pub fn is_empty(&self) -> bool
        ensures { result ≡ is_empty self.now }
    {
        self.items.is_empty()
    }

    /// The operation with this number, counted from 0; None where there is none.
    pub fn get(&self, number: usize) -> Option<&Op>
        ensures { option_map (λ o. op_view o.now) result ≡ slice_get self.now number }
    {
        self.items.get(number)
    }

    /// The operations, as a slice.
    pub(crate) fn as_slice(&self) -> &[Op]
        ensures { ops_view result.now ≡ self.now }
    {
        self.items.as_slice()
    }

    /// The operations, as a vector, which is moved and not copied.
    pub(crate) fn into_vec(self) -> Vec<Op>
        ensures { ops_view result.items ≡ self }
    {
        let Ops { items } = self;
        items
    }

    /// Appends an operation. Where memory is refused the operations stay as they were.
    pub fn push(&mut self, op: Op) -> Result<(), AllocError>
        ensures ok { OnOk result (self.new ≡ self.old ++ op_view op ∷ []) }
        ensures err { OnErr result (self.new ≡ self.old) }
    {
        self.items.push(op)?;
        Ok(())
    }

    /// Appends the operations of another list, which are moved and not copied. Where memory is refused some of them may be lost.
    pub fn append(&mut self, others: Ops) -> Result<(), AllocError>
        ensures { OnOk result (self.new ≡ self.old ++ others) }
    {
        for op in others {
            self.push(op)?;
        }
        Ok(())
    }

    /// Equal operations: trees are copied, and names share their texts.
    pub fn copy(&self, alloc: Global) -> Result<Ops, AllocError>
        ensures { IfOk result (λ os. os ≡ self.now) }
    {
        let mut copy = Ops {
            items: Vec::with_capacity(alloc, self.len())?,
        };
        for op in self {
            copy.push(op.copy(alloc)?)?;
        }
        Ok(copy)
    }
}
