// Laws of the definitions, each on the contract of a function that does nothing.
ghost use Rattle.std.specs.Prelude.{◌≡◌, ◌++◌, ℕ, List, [], ◌∷◌, replicate};
ghost use Rattle.rdf_terms.specs.Double.{without_trailing_zeros};
ghost use Rattle.rdf_terms.specs.Quad.{HasNames, IsValidQuad};
ghost use Rattle.rdf_terms.specs.declared.term.Quad.{Quad as QuadValue};

/// In a valid quad every IRI has the form of an IRI, and every label begins with `_:`.
pub fn valid_quads_are_named()
    ensures { (q : QuadValue) → IsValidQuad q → HasNames q }
{}

/// What is cut off the digits of a number is nothing but zeros, and all that stand at the end.
pub fn double_text_cuts_only_zeros()
    ensures zeros { (ds : List ℕ) → (k : ℕ) × (without_trailing_zeros ds ++ replicate k 48 ≡ ds) }
    ensures all { (ds : List ℕ) → without_trailing_zeros (ds ++ 48 ∷ []) ≡ without_trailing_zeros ds }
{}
