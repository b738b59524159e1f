// Names of nodes, graphs, properties and types, and a node of a graph.
ghost use Rattle.std.specs.Prelude.{◌≡◌, ◌++◌, not, IfOk};
ghost use Rattle.std.specs.Cmp.{partial_equiv_from_equiv};
ghost use Rattle.ld_model.specs.Tree.{is_empty};
ghost use Rattle.ld_model.specs.Keys.{default_graph};
ghost use Rattle.op_model.specs.Names.{iri, same_name, name_of, blank};
ghost use Rattle.sum_model.specs.Sums.{same_key};
ghost use Rattle.op_types.specs.View.{name_view, key_view};
ghost use Rattle.op_types.specs.SameName.{name_writes, same_view_equiv, same_view_writes, same_key_view_equiv, same_key_view_writes};

use ld_tree::Text;
use std::alloc::{AllocError, Global};
use std::hash::{Hash, Hasher};

/// The name of a node, a graph, a property or a type, before labels are issued (JSON-LD 1.1 API, section 7.4).
pub enum Name {
    /// An IRI, which needs no label. The default graph's name `@default` counts with these.
    Iri(Text),
    /// The label that a blank node has in the document.
    Source(Text),
    /// A node without an id.
    Fresh {
        /// The number of the chunk that it stands in.
        chunk: u32,
        /// Its number, from 0, among such nodes of the chunk.
        number: u64,
    },
}

// By hand, so that what is proved of a caller sees one drop, and not one for each kind.
impl Drop for Name {
    fn drop(self) {
        match self {
            Name::Iri(_) | Name::Source(_) => {}
            Name::Fresh {
                chunk: _,
                number: _,
            } => {}
        }
    }
}

impl Name {
    /// The name that a text of the document is: a label where it begins with `_:`, and else an IRI.
    pub fn of(text: Text) -> Name
        ensures { name_view result ≡ name_of text }
    {
        if text.is_blank() {
            Name::Source(text)
        } else {
            Name::Iri(text)
        }
    }

    /// The name of the default graph. Fails only where memory is refused.
    pub fn default_graph(alloc: Global) -> Result<Name, AllocError>
        ensures { IfOk result (λ n. name_view n ≡ iri default_graph) }
    {
        Ok(Name::Iri(Text::new(alloc, "@default")?))
    }

    /// An equal name, in constant time: nothing is allocated, and a long text is shared. Fails only where a text has more holders than
    /// can be counted.
    pub fn copy(&self) -> Result<Name, AllocError>
        ensures { IfOk result (λ n. name_view n ≡ name_view self.now) }
    {
        match self {
            Name::Iri(text) => Ok(Name::Iri(text.copy()?)),
            Name::Source(text) => Ok(Name::Source(text.copy()?)),
            Name::Fresh { chunk, number } => Ok(Name::Fresh {
                chunk: *chunk,
                number: *number,
            }),
        }
    }

    /// Whether the name needs a label.
    pub fn is_blank(&self) -> bool
        ensures { result ≡ not (is_empty (blank (name_view self.now))) }
    {
        match self {
            Name::Iri(_) => false,
            _ => true,
        }
    }
}

impl PartialEq for Name {
    ghost eq = { λ a b. same_name (name_view a) (name_view b) };

    ghost laws = { partial_equiv_from_equiv same_view_equiv };

    fn eq(&self, other: &Name) -> bool {
        match (self, other) {
            (Name::Iri(a), Name::Iri(b)) => a.as_str() == b.as_str(),
            (Name::Source(a), Name::Source(b)) => a.as_str() == b.as_str(),
            (
                Name::Fresh { chunk, number },
                Name::Fresh {
                    chunk: other_chunk,
                    number: other_number,
                },
            ) => *chunk == *other_chunk && *number == *other_number,
            _ => false,
        }
    }
}

impl Eq for Name {
    ghost laws = { same_view_equiv };
}

impl Hash for Name {
    ghost hash_input = { λ n. name_writes (name_view n) };

    ghost respects_eq = { same_view_writes };

    fn hash<H: Hasher>(&self, state: &mut H) {
        match self {
            Name::Iri(text) => text.hash(state),
            Name::Source(text) => text.hash(state),
            Name::Fresh { chunk, number } => {
                chunk.hash(state);
                number.hash(state);
            }
        }
    }
}

/// A node of a graph.
#[derive(Drop)]
pub struct NodeKey {
    /// The name of the graph.
    pub graph: Name,
    /// The name of the node.
    pub node: Name,
}

impl NodeKey {
    /// An equal key, whose names share their texts. Fails only where a text has more holders than can be counted.
    pub fn copy(&self) -> Result<NodeKey, AllocError>
        ensures { IfOk result (λ k. key_view k ≡ key_view self.now) }
    {
        Ok(NodeKey {
            graph: self.graph.copy()?,
            node: self.node.copy()?,
        })
    }
}

impl PartialEq for NodeKey {
    ghost eq = { λ a b. same_key (key_view a) (key_view b) };

    ghost laws = { partial_equiv_from_equiv same_key_view_equiv };

    fn eq(&self, other: &NodeKey) -> bool {
        self.graph == other.graph && self.node == other.node
    }
}

impl Eq for NodeKey {
    ghost laws = { same_key_view_equiv };
}

impl Hash for NodeKey {
    ghost hash_input = { λ k. name_writes (name_view k.graph) ++ name_writes (name_view k.node) };

    ghost respects_eq = { same_key_view_writes };

    fn hash<H: Hasher>(&self, state: &mut H) {
        self.graph.hash(state);
        self.node.hash(state);
    }
}
