// What is told of nodes, by the names of their graphs and by their ids.
ghost use Rattle.std.specs.Prelude.{◌≡◌, [], ◌&&◌, None, OnOk, IfOk};
ghost use Rattle.std.specs.Str.{bytes_eq};
ghost use Rattle.node_model.specs.NodeMap.{on_graph, on_node, node_in, graph_in};
ghost use Rattle.node_model.specs.AsTrees.{graph_pairs};
ghost use Rattle.node_logs.specs.Log.{change_of};
ghost use Rattle.node_logs.specs.Views.{gathered_view, is_row_of};

use crate::finishing::graphs_of;
use crate::graphs::{Graphs, note, note_graph, noted_index};
use crate::node::{Node, Telling, new_node};
use ld_tree::{Members, Text};
use std::alloc::{AllocError, Global};
use std::collections::BTreeMap;

/// What was told of one node of a graph without a break.
#[derive(Drop)]
struct Row {
    graph: Text,
    id: Text,
    node: Node,
}

/// What was told of the nodes of a node map (JSON-LD 1.1 API, section 7.2). A document says most of what it says of a node in one row, so
/// what is told of a node without a break is gathered apart from what is noted in the graphs, and the node is looked up once for all of it.
/// Each call's only error is that memory was refused; less may have been noted then.
#[derive(Drop)]
pub struct Gathered {
    noted: Graphs,
    row: Option<Row>,
}

impl Row {
    /// Whether it is of this node of this graph.
    fn is_of(&self, graph: &Text, id: &Text) -> bool
        ensures { result ≡ (bytes_eq self.now.graph graph.now && bytes_eq self.now.id id.now) }
    {
        self.id.as_str() == id.as_str() && self.graph.as_str() == graph.as_str()
    }
}

impl Gathered {
    /// Before anything was told: there is no graph.
    pub fn new(alloc: Global) -> Gathered
        ensures { gathered_view result ≡ [] }
    {
        Gathered {
            noted: BTreeMap::new(alloc),
            row: None,
        }
    }

    /// Tells of a node of a graph. Graph and node are made where they are missing.
    pub fn tell(
        &mut self,
        alloc: Global,
        graph: &Text,
        id: &Text,
        telling: Telling<'_>,
    ) -> Result<(), AllocError>
        ensures { OnOk result (gathered_view self.new ≡ on_node graph.now id.now (change_of telling.entry) (gathered_view self.old)) }
    {
        if let Some(row) = &mut self.row {
            if row.is_of(graph, id) {
                row.node.tell(alloc, telling)?;
                return Ok(());
            }
        }
        self.note_row(alloc)?;
        let mut node = new_node(alloc);
        node.tell(alloc, telling)?;
        self.row = Some(Row {
            graph: graph.copy()?,
            id: id.copy()?,
            node,
        });
        Ok(())
    }

    /// Makes a node of a graph, where it isn't there (steps 6.3 and 6.4). That breaks no row: it changes nothing in the row's own node.
    pub fn ensure_node(&mut self, alloc: Global, graph: &Text, id: &Text) -> Result<(), AllocError>
        ensures { OnOk result (gathered_view self.new ≡ on_node graph.now id.now (λ n. n) (gathered_view self.old)) }
    {
        if is_row_of(&self.row, graph, id) {
            return Ok(());
        }
        note(alloc, &mut self.noted, graph, id, new_node(alloc))?;
        Ok(())
    }

    /// Makes a graph, where there is none of this name (step 6.10).
    pub fn ensure_graph(&mut self, alloc: Global, graph: &Text) -> Result<(), AllocError>
        ensures { OnOk result (gathered_view self.new ≡ on_graph graph.now (λ nodes. nodes) (gathered_view self.old)) }
    {
        self.note_row(alloc)?;
        note_graph(alloc, &mut self.noted, graph)?;
        Ok(())
    }

    /// The index that a node of a graph has; None where it has none, or isn't there.
    pub fn index_of(
        &mut self,
        alloc: Global,
        graph: &Text,
        id: &Text,
    ) -> Result<Option<Text>, AllocError>
        ensures index { IfOk result (λ i. i ≡ (node_in id.now (graph_in graph.now (gathered_view self.old))).index) }
        ensures same { OnOk result (gathered_view self.new ≡ gathered_view self.old) }
    {
        self.note_row(alloc)?;
        let index = noted_index(&self.noted, graph, id)?;
        Ok(index)
    }

    /// The graphs as JSON, each a map from the ids of its nodes to the nodes.
    pub fn into_members(mut self, alloc: Global) -> Result<Members, AllocError>
        ensures { IfOk result (λ ms. ms ≡ graph_pairs (gathered_view self)) }
    {
        self.note_row(alloc)?;
        graphs_of(alloc, self.noted)
    }

    /// Notes in the graphs what was told last.
    fn note_row(&mut self, alloc: Global) -> Result<(), AllocError>
        ensures same { OnOk result (gathered_view self.new ≡ gathered_view self.old) }
        ensures none { OnOk result (self.new.row ≡ None) }
    {
        match self.row.take() {
            Some(row) => {
                let Row { graph, id, node } = row;
                note(alloc, &mut self.noted, &graph, &id, node)?;
                Ok(())
            }
            None => Ok(()),
        }
    }
}

fn is_row_of(row: &Option<Row>, graph: &Text, id: &Text) -> bool
    ensures { result ≡ is_row_of graph.now id.now row.now }
{
    match row {
        Some(row) => row.is_of(graph, id),
        None => false,
    }
}
