// The terms of a context.
ghost use Rattle.std.specs.Prelude.{◌≡◌, [], length, IfOk, OnOk, OnErr, slice_get};
ghost use Rattle.std.specs.Option.{option_map};
ghost use Rattle.std.specs.Map.{remove_entry};
ghost use Rattle.std.specs.BTreeMap.{is_at, insert_entry};
ghost use Rattle.ld_model.specs.Tree.{byte_order};
ghost use Rattle.ctx_types.specs.Context.{definition_at, has_protected};
ghost use Rattle.ctx_types.specs.Sorted.{IsAscending};
ghost use Rattle.ctx_types.specs.View.{definition_view};

use crate::branch::Branch;
use crate::definition::TermDef;
use crate::shared::Shared;
use ld_tree::Text;
use std::alloc::{AllocError, Global};
use std::marker::Model;

/// Terms with their definitions: each term once, in ascending order of the terms' bytes.
///
/// A copy has the same terms and takes constant time. A look-up and a change take a time that grows with the logarithm of
/// the number of terms, also where there are copies: they share all but what a change touches.
#[derive(Drop)]
pub struct Terms {
    table: Branch,
}

impl Model for Terms {
    ghost use Rattle.ctx_types.specs.Context as plain;
    ghost use Rattle.ctx_types.specs.ContextCode.{terms_code};
    ghost use Rattle.ctx_types.specs.Sorted.{IsAscending};

    ghost Value = { plain.Terms };

    ghost coded = { terms_code };

    ghost view = { λ t. t.table };

    ghost invariant = { λ t. IsAscending t.table };
}

impl Terms {
    /// No term. It takes no memory.
    pub fn new() -> Terms
        ensures { result ≡ [] }
    {
        Terms {
            table: Branch::new(),
        }
    }

    /// The same terms, in constant time.
    pub fn copy(&self) -> Result<Terms, AllocError>
        ensures { IfOk result (λ t. t ≡ self.now) }
    {
        Ok(Terms {
            table: self.table.copy()?,
        })
    }

    /// How many terms there are.
    pub fn len(&self) -> usize
        ensures { result ≡ length self.now }
    {
        self.table.len()
    }

    /// The definition of a term; None where there is no such term.
    pub fn get(&self, key: &str) -> Option<&TermDef>
        ensures { option_map (λ d. definition_view d.now) result ≡ definition_at key.now self.now }
    {
        self.table.get(key)
    }

    /// The term with this number, counted from 0 in the order of the terms, and its definition; None where there is none.
    pub fn at(&self, number: usize) -> Option<(&Text, &TermDef)>
        ensures term { option_map (λ t. (t.0.now, definition_view t.1.now)) result ≡ slice_get self.now number }
        ensures ascending { IsAscending self.now }
    {
        self.table.at(number)
    }

    /// Gives a term this definition, in place of the one that it had. Where memory is refused the terms stay as they were.
    pub fn set(&mut self, alloc: Global, key: Text, definition: TermDef) -> Result<(), AllocError>
        ensures ok { OnOk result (self.new ≡ insert_entry byte_order self.old key (definition_view definition)) }
        ensures err { OnErr result (self.new ≡ self.old) }
    {
        self.put(alloc, key, Shared::new(alloc, definition)?)
    }

    /// The same as `set`, with a definition that has other owners, and that is not copied.
    pub fn put(
        &mut self,
        alloc: Global,
        key: Text,
        definition: Shared<TermDef>,
    ) -> Result<(), AllocError>
        ensures ok { OnOk result (self.new ≡ insert_entry byte_order self.old key (definition_view definition)) }
        ensures err { OnErr result (self.new ≡ self.old) }
    {
        self.table = self.table.with(alloc, key, definition)?;
        Ok(())
    }

    /// Whether a definition is protected, in constant time.
    pub fn has_protected(&self) -> bool
        ensures { result ≡ has_protected self.now }
    {
        self.table.has_protected()
    }

    /// Takes a term out with its definition, which it gives without a copy; None where there is no such term. It wants
    /// memory, and where memory is refused the terms stay as they were.
    pub fn remove(
        &mut self,
        alloc: Global,
        key: &str,
    ) -> Result<Option<Shared<TermDef>>, AllocError>
        ensures value { IfOk result (λ r. option_map definition_view r ≡ definition_at key.now self.old) }
        ensures ok { OnOk result (self.new ≡ remove_entry (is_at (byte_order key.now)) self.old) }
        ensures err { OnErr result (self.new ≡ self.old) }
    {
        match self.table.without(alloc, key)? {
            None => Ok(None),
            Some((rest, definition)) => {
                self.table = rest;
                Ok(Some(definition))
            }
        }
    }
}
