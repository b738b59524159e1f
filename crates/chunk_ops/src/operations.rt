// Operations on names that are kept: each has copies of its names.
ghost use Rattle.std.specs.Prelude.{◌≡◌, IfOk};
ghost use Rattle.op_model.specs.Ops.{entries_of, use_label, ensure_graph, ensure_node, ensure_property, add_entry, append_list, add_type, set_index};
ghost use Rattle.op_types.specs.View.{name_view, entry_view, op_view};

use ld_tree::Text;
use op_types::{Entries, Entry, Name, Op};
use std::alloc::AllocError;

/// The label of a name is used (section 7.4), as an operation. Each of these copies the names that it has, and fails only where a text has more
/// holders than can be counted.
pub fn use_label(name: &Name) -> Result<Op, AllocError>
    ensures { IfOk result (λ o. op_view o ≡ use_label (name_view name.now)) }
{
    let name = name.copy()?;
    Ok(Op::UseLabel { name })
}

/// A graph is made (step 6.10).
pub fn ensure_graph(graph: &Name) -> Result<Op, AllocError>
    ensures { IfOk result (λ o. op_view o ≡ ensure_graph (name_view graph.now)) }
{
    let graph = graph.copy()?;
    Ok(Op::EnsureGraph { graph })
}

/// A node of a graph is made (steps 6.1 to 6.4).
pub fn ensure_node(graph: &Name, node: &Name) -> Result<Op, AllocError>
    ensures { IfOk result (λ o. op_view o ≡ ensure_node (name_view graph.now) (name_view node.now)) }
{
    let graph = graph.copy()?;
    let node = node.copy()?;
    Ok(Op::EnsureNode { graph, node })
}

/// A property of a node is made, with no entries (steps 6.12.1 and 6.12.2).
pub fn ensure_property(graph: &Name, node: &Name, property: &Name) -> Result<Op, AllocError>
    ensures { IfOk result (λ o. op_view o ≡ ensure_property (name_view graph.now) (name_view node.now) (name_view property.now)) }
{
    let graph = graph.copy()?;
    let node = node.copy()?;
    let property = property.copy()?;
    Ok(Op::EnsureProperty {
        graph,
        node,
        property,
    })
}

/// An entry is added to a property of a node, unless it has an equal one (steps 4.2, 6.5.2 and 6.6.3).
pub fn add_entry(graph: &Name, node: &Name, property: &Name, entry: Entry) -> Result<Op, AllocError>
    ensures { IfOk result (λ o. op_view o ≡ add_entry (name_view graph.now) (name_view node.now) (name_view property.now) (entry_view entry)) }
{
    let graph = graph.copy()?;
    let node = node.copy()?;
    let property = property.copy()?;
    Ok(Op::AddEntry {
        graph,
        node,
        property,
        entry,
    })
}

/// A list is appended to a property of a node (step 5.4).
pub fn append_list(
    graph: &Name,
    node: &Name,
    property: &Name,
    list: Entries,
) -> Result<Op, AllocError>
    ensures { IfOk result (λ o. op_view o ≡ append_list (name_view graph.now) (name_view node.now) (name_view property.now) (entries_of list)) }
{
    let graph = graph.copy()?;
    let node = node.copy()?;
    let property = property.copy()?;
    Ok(Op::AppendList {
        graph,
        node,
        property,
        list,
    })
}

/// A type is added to a node (step 3).
pub fn add_type(graph: &Name, node: &Name, name: Name) -> Result<Op, AllocError>
    ensures { IfOk result (λ o. op_view o ≡ add_type (name_view graph.now) (name_view node.now) (name_view name)) }
{
    let graph = graph.copy()?;
    let node = node.copy()?;
    Ok(Op::AddType { graph, node, name })
}

/// A node gets an index (step 6.8).
pub fn set_index(graph: &Name, node: &Name, index: Text) -> Result<Op, AllocError>
    ensures { IfOk result (λ o. op_view o ≡ set_index (name_view graph.now) (name_view node.now) index) }
{
    let graph = graph.copy()?;
    let node = node.copy()?;
    Ok(Op::SetIndex { graph, node, index })
}
