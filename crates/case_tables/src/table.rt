//! A table of names and numbers.
ghost use Rattle.std.specs.Prelude.{◌≡◌, ℕ, ◌≤◌, ◌↔◌, List, Contains, IsTrue, length, nat_eq};
ghost use Rattle.std.specs.Option.{option_copied};
ghost use Rattle.std.specs.Str.{bytes_eq};
ghost use Rattle.std.specs.Map.{lookup};
ghost use Rattle.case_tables.specs.Rows.{pairs_of, turned, names_differ, numbers_differ};

use std::marker::Model;

/// One row of a table: a name and its number.
#[derive(Clone, Copy, Debug)]
pub struct Row {
    /// What the row is looked up by.
    pub name: &'static str,
    /// What stands for the name.
    pub number: u16,
}

/// A table of `N` rows, at most 64, no two of which have one name or one number.
#[derive(Drop)]
pub struct Table<const N: usize> {
    rows: &'static [Row],
}

// Clauses see the pairs of a name's bytes and its number, in the order of the rows.
impl<const N: usize> Model for Table<N> {
    ghost use Rattle.std.specs.Prelude.{◌≡◌, ℕ, ◌≤◌, List, IsTrue, length, nat_eq};
    ghost use Rattle.std.specs.Coded.{coded×, coded_ℕ, coded_list};
    ghost use Rattle.case_tables.specs.Rows.{pairs_of, names_differ, numbers_differ};

    ghost Value = { List (List ℕ × ℕ) };

    ghost view = { λ t. pairs_of t.rows.now };

    ghost invariant = { λ t. (length t.rows.now ≡ N) × (N ≤ 64) × IsTrue (names_differ (pairs_of t.rows.now)) × IsTrue (numbers_differ (pairs_of t.rows.now)) };
}

impl<const N: usize> Table<N> {
    /// The table with these rows.
    pub fn of(rows: &'static [Row]) -> Table<N>
        requires all { length rows.now ≡ N }
        requires few { N ≤ 64 }
        requires names { IsTrue (names_differ (pairs_of rows.now)) }
        requires numbers { IsTrue (numbers_differ (pairs_of rows.now)) }
        ensures { result ≡ pairs_of rows.now }
    {
        Table { rows }
    }

    /// The number of the one row with this name, or `None` where no row has it.
    pub fn find(&self, name: &str) -> Option<u16>
        ensures { (n : ℕ) → (result ≡ Some n) ↔ Contains self.now (name.now, n) }
    {
        number_beside(self.rows, name)
    }

    /// The name of the one row with this number, or `None` where no row has it.
    pub fn name_of(&self, number: u16) -> Option<&'static str>
        ensures { (name : List ℕ) → (option_copied result ≡ Some name) ↔ Contains self.now (name, number) }
    {
        name_beside(self.rows, number)
    }
}

fn number_beside(rows: &[Row], name: &str) -> Option<u16>
    ensures { result ≡ lookup (bytes_eq name.now) (pairs_of rows.now) }
{
    for row in rows {
        if name == row.name {
            return Some(row.number);
        }
    }
    None
}

fn name_beside(rows: &[Row], number: u16) -> Option<&'static str>
    ensures { option_copied result ≡ lookup (nat_eq number) (turned (pairs_of rows.now)) }
{
    for row in rows {
        if number == row.number {
            return Some(row.name);
        }
    }
    None
}
