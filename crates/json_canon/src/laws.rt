// Laws of the canonical text, each on the contract of a function that does nothing.
ghost use Rattle.std.specs.Prelude.{◌≡◌, ◌≢◌, ℕ, List, true, false, ◌⊎◌};
ghost use Rattle.std.specs.Str.{IsUtf8};
ghost use Rattle.json_canon.specs.Utf16.{comes_before};
ghost use Rattle.json_canon.specs.Laws.{MembersAreMoved, NamesAscend, ReadsBack};

/// The order of [`less_utf16`](crate::less_utf16) is a strict total order of texts: no text comes before itself; a text
/// that comes before a second, which comes before a third, comes before the third; and of two different texts one
/// comes before the other.
pub fn less_utf16_orders_texts()
    ensures irreflexive { (a : List ℕ) → comes_before a a ≡ false }
    ensures transitive { (a b c : List ℕ) → comes_before a b ≡ true → comes_before b c ≡ true
        → comes_before a c ≡ true }
    ensures total { (a b : List ℕ) → IsUtf8 a → IsUtf8 b → a ≢ b
        → (comes_before a b ≡ true) ⊎ (comes_before b a ≡ true) }
{}

/// Sorting the members of an object only moves them, and leaves their names in strictly ascending order.
pub fn members_are_sorted()
    ensures moved { MembersAreMoved }
    ensures ascending { NamesAscend }
{}

/// The canonical text of a tree that was read, nested at most 127 deep, reads as that tree.
pub fn canonical_text_reads_back()
    ensures { ReadsBack }
{}
