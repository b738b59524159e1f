// Terms and quads.
use ld_text::Text;

/// An RDF term (RDF 1.1 Concepts, section 3).
pub enum Term {
    /// An IRI.
    Iri(Text),
    /// A blank node, by its label, which begins with `_:`.
    Blank(Text),
    /// A literal.
    Literal {
        /// The lexical form.
        lexical: Text,
        /// The IRI of the datatype; `rdf:langString` where there is a language.
        datatype: Text,
        /// The language tag of a language-tagged string, without an `@`.
        language: Option<Text>,
    },
}

// By hand, so that what is proved of a caller sees one drop, and not one for each kind.
impl Drop for Term {
    fn drop(self) {
        match self {
            Term::Iri(_) | Term::Blank(_) => {}
            Term::Literal {
                lexical: _,
                datatype: _,
                language: _,
            } => {}
        }
    }
}

/// A triple, in the default graph or in a named one (RDF 1.1 Concepts, section 4).
#[derive(Drop)]
pub struct Quad {
    /// An IRI or a blank node.
    pub subject: Term,
    /// An IRI.
    pub predicate: Term,
    /// Any term.
    pub object: Term,
    /// The name of the graph, an IRI or a blank node; `None` in the default graph.
    pub graph: Option<Term>,
}
