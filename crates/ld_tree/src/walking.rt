// Walks over the values of an array and the members of an object.
ghost use Rattle.std.specs.Prelude.{◌≡◌, slice_get};
ghost use Rattle.std.specs.Option.{option_map};
ghost use Rattle.std.specs.Iterator.{YieldsFirstBy, item_count};
ghost use Rattle.ld_model.specs.Tree.{AreAscending};
ghost use Rattle.ld_tree.specs.View.{view};

use crate::value::{Members, Tree, Trees};
use ld_text::Text;
use std::iter::IntoIterator;
use std::marker::Model;
use std::vec;

/// The values that are left, in order.
#[derive(Drop)]
pub struct Values<'a> {
    rest: &'a [Tree],
}

impl<'a> Model for Values<'a> {
    ghost use Rattle.std.specs.Prelude.{List};
    ghost use Rattle.std.specs.Coded.{coded_list};
    ghost use Rattle.ld_model.specs.Tree.{Tree as TreeData};
    ghost use Rattle.ld_model.specs.TreeCode.{tree_code};
    ghost use Rattle.ld_tree.specs.View.{trees_view};

    ghost Value = { List TreeData };

    ghost coded = { coded_list tree_code };

    ghost view = { λ v. trees_view v.rest.now };
}

impl<'a> Iterator for Values<'a> {
    type Item = &'a Tree;

    ghost next_gives = { YieldsFirstBy (λ t. view t.now) (λ rest. rest) };

    ghost remaining = { item_count (λ rest. rest) };

    fn next(&mut self) -> Option<&'a Tree> {
        let (first, rest) = self.rest.split_first()?;
        self.rest = rest;
        Some(first)
    }
}

impl Trees {
    /// The values, in order.
    pub fn iter(&self) -> Values<'_>
        ensures { result ≡ self.now }
    {
        Values {
            rest: self.as_slice(),
        }
    }
}

impl<'a> IntoIterator for &'a Trees {
    type Item = &'a Tree;

    type IntoIter = Values<'a>;

    ghost into_iter_gives = { λ ts it. it ≡ ts.now };

    fn into_iter(self) -> Values<'a> {
        self.iter()
    }
}

/// The values that are left, by value, in order.
#[derive(Drop)]
pub struct IntoValues {
    rest: vec::IntoIter<Tree>,
}

impl Model for IntoValues {
    ghost use Rattle.std.specs.Prelude.{List};
    ghost use Rattle.std.specs.Coded.{coded_list};
    ghost use Rattle.std.specs.Vec.Iter.{into_iter_items};
    ghost use Rattle.ld_model.specs.Tree.{Tree as TreeData};
    ghost use Rattle.ld_model.specs.TreeCode.{tree_code};
    ghost use Rattle.ld_tree.specs.View.{trees_view};

    ghost Value = { List TreeData };

    ghost coded = { coded_list tree_code };

    ghost view = { λ v. trees_view (into_iter_items v.rest) };
}

impl Iterator for IntoValues {
    type Item = Tree;

    ghost next_gives = { YieldsFirstBy (λ t. view t) (λ rest. rest) };

    ghost remaining = { item_count (λ rest. rest) };

    fn next(&mut self) -> Option<Tree> {
        self.rest.next()
    }
}

impl IntoIterator for Trees {
    type Item = Tree;

    type IntoIter = IntoValues;

    ghost into_iter_gives = { λ ts it. it ≡ ts };

    fn into_iter(self) -> IntoValues {
        IntoValues {
            rest: self.into_vec().into_iter(),
        }
    }
}

/// The members that are left, in the order of their keys.
#[derive(Drop)]
pub struct Entries<'a> {
    rest: &'a [(Text, Tree)],
}

impl<'a> Model for Entries<'a> {
    ghost use Rattle.std.specs.Prelude.{List, ℕ};
    ghost use Rattle.std.specs.Coded.{coded_list, coded×, coded_ℕ};
    ghost use Rattle.ld_model.specs.Tree.{Tree as TreeData};
    ghost use Rattle.ld_model.specs.TreeCode.{tree_code};
    ghost use Rattle.ld_tree.specs.View.{members_view};

    ghost Value = { List (List ℕ × TreeData) };

    ghost coded = { coded_list (coded× (coded_list coded_ℕ) tree_code) };

    ghost view = { λ e. members_view e.rest.now };
}

impl<'a> Iterator for Entries<'a> {
    type Item = (&'a Text, &'a Tree);

    ghost next_gives = { YieldsFirstBy (λ m. (m.0.now, view m.1.now)) (λ rest. rest) };

    ghost remaining = { item_count (λ rest. rest) };

    fn next(&mut self) -> Option<(&'a Text, &'a Tree)> {
        let (first, rest) = self.rest.split_first()?;
        self.rest = rest;
        Some((&first.0, &first.1))
    }
}

impl<'a> Entries<'a> {
    /// The next member, which stays.
    pub fn peek(&self) -> Option<(&'a Text, &'a Tree)>
        ensures { option_map (λ m. (m.0.now, view m.1.now)) result ≡ slice_get self.now 0 }
    {
        let first = self.rest.first()?;
        Some((&first.0, &first.1))
    }
}

/// The members that are left, by value, in the order of their keys.
#[derive(Drop)]
pub struct IntoEntries {
    rest: vec::IntoIter<(Text, Tree)>,
}

impl Model for IntoEntries {
    ghost use Rattle.std.specs.Prelude.{List, ℕ};
    ghost use Rattle.std.specs.Coded.{coded_list, coded×, coded_ℕ};
    ghost use Rattle.std.specs.Vec.Iter.{into_iter_items};
    ghost use Rattle.ld_model.specs.Tree.{Tree as TreeData};
    ghost use Rattle.ld_model.specs.TreeCode.{tree_code};
    ghost use Rattle.ld_tree.specs.View.{members_view};

    ghost Value = { List (List ℕ × TreeData) };

    ghost coded = { coded_list (coded× (coded_list coded_ℕ) tree_code) };

    ghost view = { λ e. members_view (into_iter_items e.rest) };
}

impl Iterator for IntoEntries {
    type Item = (Text, Tree);

    ghost next_gives = { YieldsFirstBy (λ m. (m.0, view m.1)) (λ rest. rest) };

    ghost remaining = { item_count (λ rest. rest) };

    fn next(&mut self) -> Option<(Text, Tree)> {
        self.rest.next()
    }
}

impl IntoIterator for Members {
    type Item = (Text, Tree);

    type IntoIter = IntoEntries;

    ghost into_iter_gives = { λ ms it. (it ≡ ms) × AreAscending ms };

    fn into_iter(self) -> IntoEntries {
        IntoEntries {
            rest: self.into_vec().into_iter(),
        }
    }
}

impl Members {
    /// The members, in the order of their keys.
    pub fn iter(&self) -> Entries<'_>
        ensures members { result ≡ self.now }
        ensures ascending { AreAscending self.now }
    {
        Entries {
            rest: self.as_slice(),
        }
    }
}

impl<'a> IntoIterator for &'a Members {
    type Item = (&'a Text, &'a Tree);

    type IntoIter = Entries<'a>;

    ghost into_iter_gives = { λ ms it. (it ≡ ms.now) × AreAscending ms.now };

    fn into_iter(self) -> Entries<'a> {
        self.iter()
    }
}
