// The steps of node map generation that make a node map.
ghost use Rattle.std.specs.Prelude.{◌≡◌, None, OnOk, IfOk, ◌∷◌, [], if◌then◌else◌};
ghost use Rattle.std.specs.Str.{bytes_eq};
ghost use Rattle.node_model.specs.Labels.{no_labels};
ghost use Rattle.node_model.specs.Generating.{or_conflict};
ghost use Rattle.node_ops.specs.Views.{state_view};
ghost use Rattle.node_types.specs.Views.{conflict_in};

use crate::labels::Labels;
use ld_tree::{Text, Tree, Trees};
use node_logs::{Gathered, Telling, list_object, reference};
use node_types::Conflict;
use node_walk::Gather;
use std::alloc::{AllocError, Global};

/// What was gathered so far: the graphs, the labels, and the first conflict.
#[derive(Drop)]
pub(crate) struct Nodes {
    pub(crate) graphs: Gathered,
    pub(crate) labels: Labels,
    pub(crate) conflict: Option<Conflict>,
}

impl Nodes {
    /// A graph of this name, and nothing in it.
    #[tactic(auto, unfolding(node_model::specs::Maps::with_at))]
    pub(crate) fn new(alloc: Global, name: &Text) -> Result<Nodes, AllocError>
        ensures { IfOk result (λ n. state_view n ≡ record { graphs = (name.now, []) ∷ []; labels = no_labels; conflict = None }) }
    {
        let mut graphs = Gathered::new(alloc);
        graphs.ensure_graph(alloc, name)?;
        Ok(Nodes {
            graphs,
            labels: Labels::new(alloc),
            conflict: None,
        })
    }
}

impl Gather for Nodes {
    ghost use Rattle.std.specs.Prelude.{ℕ, List};
    ghost use Rattle.ld_model.specs.Tree.{Tree as TreeData};
    ghost use Rattle.node_model.specs.Generating.{State as Gathered, generating};
    ghost use Rattle.node_ops.specs.Views.{state_view};

    type Name = Text;

    type Items = Trees;

    ghost State = { Gathered };

    ghost N = { List ℕ };

    ghost E = { TreeData };

    ghost steps = { generating };

    ghost state = { state_view };

    ghost name = { λ n. n };

    ghost items = { λ ts. ts };

    fn no_items(&self, alloc: Global) -> Trees {
        Trees::new(alloc)
    }

    fn push_value(&self, list: &mut Trees, value: Tree) -> Result<(), AllocError> {
        list.push(value)?;
        Ok(())
    }

    fn push_reference(
        &self,
        alloc: Global,
        list: &mut Trees,
        node: &Text,
    ) -> Result<(), AllocError> {
        list.push(reference(alloc, node)?)?;
        Ok(())
    }

    fn push_list(&self, alloc: Global, list: &mut Trees, inner: Trees) -> Result<(), AllocError> {
        list.push(list_object(alloc, inner)?)?;
        Ok(())
    }

    fn named(&mut self, alloc: Global, text: Text) -> Result<Text, AllocError> {
        let name = self.labels.named(alloc, text)?;
        Ok(name)
    }

    fn node(&mut self, alloc: Global, graph: &Text, id: Option<Text>) -> Result<Text, AllocError> {
        let name = self.labels.id_or_new(alloc, id)?;
        self.graphs.ensure_node(alloc, graph, &name)?;
        Ok(name)
    }

    fn property(
        &mut self,
        alloc: Global,
        graph: &Text,
        node: &Text,
        text: Text,
    ) -> Result<Text, AllocError> {
        let name = self.labels.named(alloc, text)?;
        self.graphs
            .tell(alloc, graph, node, Telling::Property(&name))?;
        Ok(name)
    }

    fn graph(&mut self, alloc: Global, graph: &Text) -> Result<(), AllocError> {
        self.graphs.ensure_graph(alloc, graph)?;
        Ok(())
    }

    fn add_value(
        &mut self,
        alloc: Global,
        graph: &Text,
        node: &Text,
        property: &Text,
        value: Tree,
    ) -> Result<(), AllocError> {
        self.graphs
            .tell(alloc, graph, node, Telling::Entry(property, value))?;
        Ok(())
    }

    fn add_reference(
        &mut self,
        alloc: Global,
        graph: &Text,
        node: &Text,
        property: &Text,
        target: &Text,
    ) -> Result<(), AllocError> {
        let entry = reference(alloc, target)?;
        self.graphs
            .tell(alloc, graph, node, Telling::Entry(property, entry))?;
        Ok(())
    }

    fn append(
        &mut self,
        alloc: Global,
        graph: &Text,
        node: &Text,
        property: &Text,
        list: Trees,
    ) -> Result<(), AllocError> {
        let entry = list_object(alloc, list)?;
        self.graphs
            .tell(alloc, graph, node, Telling::Entry(property, entry))?;
        Ok(())
    }

    fn add_type(
        &mut self,
        alloc: Global,
        graph: &Text,
        node: &Text,
        type_name: Text,
    ) -> Result<(), AllocError> {
        self.graphs
            .tell(alloc, graph, node, Telling::TypeName(type_name))?;
        Ok(())
    }

    fn set_index(
        &mut self,
        alloc: Global,
        graph: &Text,
        node: &Text,
        index: Text,
    ) -> Result<(), AllocError> {
        match self.graphs.index_of(alloc, graph, node)? {
            None => {
                self.graphs.tell(alloc, graph, node, Telling::Index(index))?;
                Ok(())
            }
            Some(first) => {
                note_index(&mut self.conflict, node, first, index)?;
                Ok(())
            }
        }
    }
}

/// Notes a conflict, where the index that a node has is not the one that it is told to have. The first conflict stays.
fn note_index(
    conflict: &mut Option<Conflict>,
    node: &Text,
    first: Text,
    second: Text,
) -> Result<(), AllocError>
    ensures { OnOk result (conflict_in conflict.new ≡ (if bytes_eq first second then conflict_in conflict.old
        else or_conflict (conflict_in conflict.old) (record { node = node.now; first = first; second = second }))) }
{
    if first.as_str() == second.as_str() || conflict.is_some() {
        return Ok(());
    }
    *conflict = Some(Conflict {
        node: node.copy()?,
        first,
        second,
    });
    Ok(())
}
