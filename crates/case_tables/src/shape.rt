//! The shapes of containers.
ghost use Rattle.std.specs.Prelude.{◌≡◌, ◌↔◌, Bool, false, Some, IsTrue};
ghost use Rattle.case_tables.specs.Shape.{HasWords, is_allowed, shape_of, with_word};

use crate::Keyword;

/// Which words a container mapping has (JSON-LD 1.1, section 9.15.1).
#[derive(Clone, Copy, Debug, PartialEq, Eq)]
pub struct Shape {
    /// `@graph`
    pub graph: bool,
    /// `@id`
    pub id: bool,
    /// `@index`
    pub index: bool,
    /// `@language`
    pub language: bool,
    /// `@list`
    pub list: bool,
    /// `@set`
    pub set: bool,
    /// `@type`
    pub types: bool,
}

impl Shape {
    /// The shape of no container, which has no word.
    pub fn none() -> Shape
        ensures { result ≡ record { graph = false; id = false; index = false; language = false; list = false; set = false; types = false } }
    {
        Shape {
            graph: false,
            id: false,
            index: false,
            language: false,
            list: false,
            set: false,
            types: false,
        }
    }

    // The shape with one word more, or `None` where it has the word or no container has it.
    fn with(self, word: Keyword) -> Option<Shape>
        ensures { result ≡ with_word self word }
    {
        match word {
            Keyword::Graph if !self.graph => Some(Shape {
                graph: true,
                ..self
            }),
            Keyword::Id if !self.id => Some(Shape { id: true, ..self }),
            Keyword::Index if !self.index => Some(Shape {
                index: true,
                ..self
            }),
            Keyword::Language if !self.language => Some(Shape {
                language: true,
                ..self
            }),
            Keyword::List if !self.list => Some(Shape { list: true, ..self }),
            Keyword::Set if !self.set => Some(Shape { set: true, ..self }),
            Keyword::TypeWord if !self.types => Some(Shape {
                types: true,
                ..self
            }),
            _ => None,
        }
    }

    fn is_allowed(self) -> bool
        ensures { result ≡ is_allowed self }
    {
        let count = u8::from(self.graph)
            + u8::from(self.id)
            + u8::from(self.index)
            + u8::from(self.language)
            + u8::from(self.list)
            + u8::from(self.set)
            + u8::from(self.types);
        let names_graphs = self.graph && (self.id || self.index);
        match count {
            1 => true,
            2 => names_graphs || self.set && !self.list,
            3 => names_graphs && self.set,
            _ => false,
        }
    }
}

/// The shape of a container mapping that has these words, in any order (JSON-LD 1.1 API, section
/// 4.2.2, step 19).
///
/// It is `None` where a word stands twice, and where the words are not allowed together. Allowed
/// are one word alone of `@graph`, `@id`, `@index`, `@language`, `@list`, `@set` and `@type`;
/// `@graph` with one of `@id` and `@index`, and perhaps `@set`; and `@set` with one of `@graph`,
/// `@id`, `@index`, `@language` and `@type`.
pub fn container_shape(words: &[Keyword]) -> Option<Shape>
    ensures words { (s : Shape) → (result ≡ Some s) ↔ (HasWords words.now s × IsTrue (is_allowed s)) }
    ensures shape { result ≡ shape_of words.now }
{
    let mut shape = Shape::none();
    for word in words {
        shape = shape.with(*word)?;
    }
    if shape.is_allowed() {
        Some(shape)
    } else {
        None
    }
}
