//! The keywords of JSON-LD 1.1.
ghost use Rattle.std.specs.Prelude.{◌≡◌, ◌<◌, ℕ, IfSome, Some, IsTrue};
ghost use Rattle.std.specs.List.{slice_get};
ghost use Rattle.case_tables.specs.Rows.{numbered};
ghost use Rattle.case_tables.specs.Keyword.{keyword_name};

use crate::{Row, Table};

/// A keyword (JSON-LD 1.1, section 1.7).
#[derive(Clone, Copy, Debug, PartialEq, Eq)]
pub enum Keyword {
    /// `@base`
    Base,
    /// `@container`
    Container,
    /// `@context`
    Context,
    /// `@direction`
    Direction,
    /// `@graph`
    Graph,
    /// `@id`
    Id,
    /// `@import`
    Import,
    /// `@included`
    Included,
    /// `@index`
    Index,
    /// `@json`
    Json,
    /// `@language`
    Language,
    /// `@list`
    List,
    /// `@nest`
    Nest,
    /// `@none`
    NoneWord,
    /// `@prefix`
    Prefix,
    /// `@propagate`
    Propagate,
    /// `@protected`
    Protected,
    /// `@reverse`
    Reverse,
    /// `@set`
    Set,
    /// `@type`
    TypeWord,
    /// `@value`
    Value,
    /// `@version`
    Version,
    /// `@vocab`
    Vocab,
}

// Each variant with its name, handed to the macro that is named.
macro_rules! keywords {
    ($then:ident $($value:ident)?) => {
        $then! {
            Keyword $($value)?;
            Base = "@base",
            Container = "@container",
            Context = "@context",
            Direction = "@direction",
            Graph = "@graph",
            Id = "@id",
            Import = "@import",
            Included = "@included",
            Index = "@index",
            Json = "@json",
            Language = "@language",
            List = "@list",
            Nest = "@nest",
            NoneWord = "@none",
            Prefix = "@prefix",
            Propagate = "@propagate",
            Protected = "@protected",
            Reverse = "@reverse",
            Set = "@set",
            TypeWord = "@type",
            Value = "@value",
            Version = "@version",
            Vocab = "@vocab",
        }
    };
}

const KEYWORDS: [Keyword; 23] = keywords!(each);

impl Keyword {
    /// The keyword as a document writes it, with its `@`.
    pub fn name(self) -> &'static str
        ensures { result.now ≡ keyword_name self }
    {
        keywords!(name_in self)
    }
}

/// The keyword that the text is, or `None` where it is none. `keyword_of(k.name())` is `Some(k)`.
pub fn keyword_of(text: &str) -> Option<Keyword>
    ensures listed { (k : Keyword) → text.now ≡ keyword_name k → result ≡ Some k }
    ensures named { IfSome result (λ k. text.now ≡ keyword_name k) }
{
    if !may_be_name(text) {
        return None;
    }
    let number = keyword_table().find(text)?;
    keyword_at(number)
}

// Looks at the length and the first byte, which rule out most texts at once.
fn may_be_name(text: &str) -> bool
    ensures { (k : Keyword) → text.now ≡ keyword_name k → IsTrue result }
{
    let bytes = text.as_bytes();
    bytes.len() <= 10 && bytes.first() == Some(&b'@')
}

fn keyword_table() -> Table<23>
    ensures { result ≡ numbered keyword_name 0 KEYWORDS }
{
    keywords!(rows)
}

fn keyword_at(number: u16) -> Option<Keyword>
    ensures { result ≡ slice_get KEYWORDS number }
{
    KEYWORDS.get(usize::from(number)).copied()
}
