// Labels of blank nodes, and how they are issued (JSON-LD 1.1 API, section 7.4).
ghost use Rattle.std.specs.Prelude.{◌≡◌, ◌+◌, OnOk, IfOk};
ghost use Rattle.node_model.specs.Labels as model;
ghost use Rattle.node_model.specs.Maps.{with_at};
ghost use Rattle.node_ops.specs.Views.{labels_view};

use ld_tree::Text;
use node_types::label_text;
use std::alloc::{AllocError, Global};
use std::collections::BTreeMap;

/// How many labels were issued, and the number that each label of the document was given.
#[derive(Drop)]
pub(crate) struct Labels {
    issued: u64,
    given: BTreeMap<Text, u64>,
}

impl Labels {
    /// Before the first label.
    pub(crate) fn new(alloc: Global) -> Labels
        ensures { labels_view result ≡ model.no_labels }
    {
        Labels {
            issued: 0,
            given: BTreeMap::new(alloc),
        }
    }

    /// How many labels were issued. What the labels of the document were given goes back.
    pub(crate) fn into_count(self) -> u64
        ensures { result ≡ self.issued }
    {
        self.issued
    }

    /// A name of the document as it is in the node map: the label of a blank node is replaced by the one that is issued for it.
    pub(crate) fn named(&mut self, alloc: Global, text: Text) -> Result<Text, AllocError>
        ensures { IfOk result (λ n. (n, labels_view self.new) ≡ model.named text (labels_view self.old)) }
    {
        if text.is_blank() {
            let label = self.label_for(alloc, text)?;
            return Ok(label);
        }
        Ok(text)
    }

    /// The id of a node: its own, as a name, or else a new label (section 7.2, steps 6.1 and 6.2).
    pub(crate) fn id_or_new(&mut self, alloc: Global, id: Option<Text>) -> Result<Text, AllocError>
        ensures { IfOk result (λ n. (n, labels_view self.new) ≡ model.id_or_new id (labels_view self.old)) }
    {
        match id {
            Some(text) => {
                let name = self.named(alloc, text)?;
                Ok(name)
            }
            None => {
                let number = self.next()?;
                Ok(label_text(alloc, number)?)
            }
        }
    }

    fn label_for(&mut self, alloc: Global, text: Text) -> Result<Text, AllocError>
        ensures { IfOk result (λ n. (n, labels_view self.new) ≡ model.label_for text (labels_view self.old)) }
    {
        if let Some(number) = self.given.get(&text) {
            return Ok(label_text(alloc, *number)?);
        }
        let number = self.next()?;
        give(&mut self.given, text, number)?;
        Ok(label_text(alloc, number)?)
    }

    /// The number of a new label.
    fn next(&mut self) -> Result<u64, AllocError>
        ensures number { IfOk result (λ n. n ≡ self.old.issued) }
        ensures issued { OnOk result (self.new.issued ≡ self.old.issued + 1) }
        ensures given { self.new.given ≡ self.old.given }
    {
        let number = self.issued;
        match number.checked_add(1) {
            Some(issued) => self.issued = issued,
            None => return Err(AllocError),
        }
        Ok(number)
    }
}

#[tactic(auto, unfolding(node_model::specs::Maps::with_at))]
fn give(given: &mut BTreeMap<Text, u64>, text: Text, number: u64) -> Result<(), AllocError>
    ensures { OnOk result (given.new.entries ≡ with_at text number given.old.entries) }
{
    match given.insert(text, number) {
        Ok(_) => Ok(()),
        Err(_) => Err(AllocError),
    }
}
