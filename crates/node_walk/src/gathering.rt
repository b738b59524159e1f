// What is done on the way through a document.
ghost use Rattle.std.specs.Prelude.{◌≡◌, ◌++◌, ◌∷◌, [], ℕ, List, OnOk, IfOk};
ghost use Rattle.ld_tree.specs.View.{view};
ghost use Rattle.node_model.specs.Walk.{Steps};

use ld_tree::{Text, Tree};
use std::alloc::{AllocError, Global};

/// Where an element of the document goes.
#[derive(Clone, Copy)]
pub enum To<R> {
    /// Nowhere: there is no active subject.
    Nowhere,
    /// Under a property of the active subject.
    Under(R, R),
    /// Into the list that is gathered.
    InList,
    /// It is a node, reached by a reverse property, that gets this property with a reference to the active subject.
    Reverse(R, R),
}

/// What is done with the names, nodes, entries, types and indexes of a document, in the order in which node map generation comes to
/// them (JSON-LD 1.1 API, section 7.2). Each call's only error is that memory was refused.
pub trait Gather {
    /// The name of a node, a graph or a property.
    type Name: Drop;
    /// The items of a list.
    type Items: Drop;

    ghost State: { Type 0 };

    ghost N: { Type 0 };

    ghost E: { Type 0 };

    ghost steps: { Steps State N E };

    ghost state: { Self → State };

    ghost name: { Self.Name → N };

    ghost items: { Self.Items → List E };

    /// A list without items.
    fn no_items(&self, alloc: Global) -> Self::Items
        ensures { items result ≡ [] };

    /// Appends a value object to a list.
    fn push_value(&self, list: &mut Self::Items, value: Tree) -> Result<(), AllocError>
        ensures { OnOk result (items list.new ≡ items list.old ++ steps.value (view value) ∷ []) };

    /// Appends a reference to a node to a list.
    fn push_reference(
        &self,
        alloc: Global,
        list: &mut Self::Items,
        node: &Self::Name,
    ) -> Result<(), AllocError>
        ensures { OnOk result (items list.new ≡ items list.old ++ steps.reference (name node.now) ∷ []) };

    /// Appends a list to a list.
    fn push_list(
        &self,
        alloc: Global,
        list: &mut Self::Items,
        inner: Self::Items,
    ) -> Result<(), AllocError>
        ensures { OnOk result (items list.new ≡ items list.old ++ steps.list (items inner) ∷ []) };

    /// The name that a text of the document stands for (section 7.4 for the label of a blank node).
    fn named(&mut self, alloc: Global, text: Text) -> Result<Self::Name, AllocError>
        ensures { IfOk result (λ n. (name n, state self.new) ≡ steps.named text (state self.old)) };

    /// A node of a graph, by its id or with a new label (steps 6.1 to 6.4).
    fn node(
        &mut self,
        alloc: Global,
        graph: &Self::Name,
        id: Option<Text>,
    ) -> Result<Self::Name, AllocError>
        ensures { IfOk result (λ n. (name n, state self.new) ≡ steps.node (name graph.now) id (state self.old)) };

    /// A property of a node, whose array is made where there is none (steps 6.12.1 and 6.12.2).
    fn property(
        &mut self,
        alloc: Global,
        graph: &Self::Name,
        node: &Self::Name,
        text: Text,
    ) -> Result<Self::Name, AllocError>
        ensures { IfOk result (λ n. (name n, state self.new) ≡ steps.property (name graph.now) (name node.now) text (state self.old)) };

    /// A graph (step 6.10).
    fn graph(&mut self, alloc: Global, graph: &Self::Name) -> Result<(), AllocError>
        ensures { OnOk result (state self.new ≡ steps.graph (name graph.now) (state self.old)) };

    /// A value object under a property of a node (step 4.1.2).
    fn add_value(
        &mut self,
        alloc: Global,
        graph: &Self::Name,
        node: &Self::Name,
        property: &Self::Name,
        value: Tree,
    ) -> Result<(), AllocError>
        ensures { OnOk result (state self.new ≡ steps.add (name graph.now) (name node.now) (name property.now) (steps.value (view value)) (state self.old)) };

    /// A reference under a property of a node (steps 6.5.2 and 6.6.2.2).
    fn add_reference(
        &mut self,
        alloc: Global,
        graph: &Self::Name,
        node: &Self::Name,
        property: &Self::Name,
        target: &Self::Name,
    ) -> Result<(), AllocError>
        ensures { OnOk result (state self.new ≡ steps.add (name graph.now) (name node.now) (name property.now) (steps.reference (name target.now)) (state self.old)) };

    /// A list under a property of a node (step 5.3).
    fn append(
        &mut self,
        alloc: Global,
        graph: &Self::Name,
        node: &Self::Name,
        property: &Self::Name,
        list: Self::Items,
    ) -> Result<(), AllocError>
        ensures { OnOk result (state self.new ≡ steps.append (name graph.now) (name node.now) (name property.now) (items list) (state self.old)) };

    /// A type of a node (step 6.7).
    fn add_type(
        &mut self,
        alloc: Global,
        graph: &Self::Name,
        node: &Self::Name,
        type_name: Self::Name,
    ) -> Result<(), AllocError>
        ensures { OnOk result (state self.new ≡ steps.type_ (name graph.now) (name node.now) (name type_name) (state self.old)) };

    /// The index of a node (step 6.8).
    fn set_index(
        &mut self,
        alloc: Global,
        graph: &Self::Name,
        node: &Self::Name,
        index: Text,
    ) -> Result<(), AllocError>
        ensures { OnOk result (state self.new ≡ steps.index (name graph.now) (name node.now) index (state self.old)) };
}
