//! Laws of N-Quads, each on the contract of a function that does nothing.
//!
//! `specs/Text.antt` says which quads are good: the valid ones whose texts are UTF-8, as each `Text` is. `specs/Grammar.antt`
//! says which lines the grammar of RDF 1.1 N-Quads has, and what they say, by its productions alone.
#![tactic(auto)]

ghost use Rattle.std.specs.Prelude.{◌≡◌, ◌++◌, ◌∷◌, ℕ, List, [], Option, Ok, Err, Some, map};
ghost use Rattle.rdf_terms.specs.declared.term.Quad.{Quad as QuadValue};
ghost use Rattle.nquads_text.specs.Statement.{said};
ghost use Rattle.nquads_text.specs.Lines.{lines, read_from};
ghost use Rattle.nquads_text.specs.Written.{quad_text, written};
ghost use Rattle.quad_laws.specs.Grammar.{IsLine, AreLines};
ghost use Rattle.quad_laws.specs.Text.{IsGood, AreGood, line_text};

/// A good quad is written as a line with a line feed, and that line says just this quad, so no other.
pub fn a_written_quad_is_read_back()
    ensures line { (q : QuadValue) → quad_text q ≡ line_text q ++ 10 ∷ [] }
    ensures back { (q : QuadValue) → IsGood q → said (line_text q) ≡ Ok (Some q) }
{}

/// The lines of what is written of good quads are the lines of these quads, one each and in their order; and reading them
/// gives just these quads, whatever the number of the first line.
pub fn written_quads_are_read_back()
    ensures lines { (qs : List QuadValue) → AreGood qs → lines (written qs) ≡ map line_text qs }
    ensures back { (number : ℕ) (qs : List QuadValue) → AreGood qs → read_from number (lines (written qs)) ≡ Ok qs }
{}

/// A line is read as one quad, or as none, exactly where the grammar has it with that quad, or with none. So the grammar has no
/// line with two, and a line that can't be read is none of the grammar.
pub fn lines_are_read_by_the_grammar()
    ensures read { (line : List ℕ) (q : Option QuadValue) → said line ≡ Ok q → IsLine line q }
    ensures reads { (line : List ℕ) (q : Option QuadValue) → IsLine line q → said line ≡ Ok q }
    ensures one { (line : List ℕ) (q r : Option QuadValue) → IsLine line q → IsLine line r → q ≡ r }
    ensures bad { (line at : List ℕ) (q : Option QuadValue) → said line ≡ Err at → IsLine line q → ⊥ }
{}

/// The lines of a text are read as these quads exactly where each is a line of the grammar, and what they say is just these
/// quads in their order, whatever the number of the first line.
pub fn texts_are_read_by_the_grammar()
    ensures read { (number : ℕ) (ls : List (List ℕ)) (qs : List QuadValue) → read_from number ls ≡ Ok qs → AreLines ls qs }
    ensures reads { (number : ℕ) (ls : List (List ℕ)) (qs : List QuadValue) → AreLines ls qs → read_from number ls ≡ Ok qs }
{}

/// The lines of what is written of good quads are lines of the grammar, and say just these quads in their order.
pub fn written_quads_are_lines_of_the_grammar()
    ensures { (qs : List QuadValue) → AreGood qs → AreLines (lines (written qs)) qs }
{}
