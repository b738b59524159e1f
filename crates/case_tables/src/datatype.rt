//! The datatypes that JSON-LD 1.1 treats apart.
ghost use Rattle.std.specs.Prelude.{◌≡◌, ◌<◌, ℕ, IfSome, Some, IsTrue};
ghost use Rattle.std.specs.List.{slice_get};
ghost use Rattle.case_tables.specs.Rows.{numbered};
ghost use Rattle.case_tables.specs.Datatype.{datatype_name};

use crate::{Row, Table};

/// A datatype that conversion to and from RDF treats apart.
#[derive(Clone, Copy, Debug, PartialEq, Eq)]
pub enum Datatype {
    /// `xsd:boolean`
    XsdBoolean,
    /// `xsd:integer`
    XsdInteger,
    /// `xsd:double`
    XsdDouble,
    /// `xsd:string`
    XsdString,
    /// `rdf:langString`
    RdfLangString,
    /// `rdf:JSON`
    RdfJson,
}

// Each variant with its name, handed to the macro that is named.
macro_rules! datatypes {
    ($then:ident $($value:ident)?) => {
        $then! {
            Datatype $($value)?;
            XsdBoolean = "http://www.w3.org/2001/XMLSchema#boolean",
            XsdInteger = "http://www.w3.org/2001/XMLSchema#integer",
            XsdDouble = "http://www.w3.org/2001/XMLSchema#double",
            XsdString = "http://www.w3.org/2001/XMLSchema#string",
            RdfLangString = "http://www.w3.org/1999/02/22-rdf-syntax-ns#langString",
            RdfJson = "http://www.w3.org/1999/02/22-rdf-syntax-ns#JSON",
        }
    };
}

const DATATYPES: [Datatype; 6] = datatypes!(each);

impl Datatype {
    /// The IRI of the datatype.
    pub fn name(self) -> &'static str
        ensures { result.now ≡ datatype_name self }
    {
        datatypes!(name_in self)
    }
}

/// The datatype that the IRI names, or `None` where it is none of these. `datatype_of(d.name())` is `Some(d)`.
pub fn datatype_of(iri: &str) -> Option<Datatype>
    ensures listed { (k : Datatype) → iri.now ≡ datatype_name k → result ≡ Some k }
    ensures named { IfSome result (λ k. iri.now ≡ datatype_name k) }
{
    if !may_be_name(iri) {
        return None;
    }
    let number = datatype_table().find(iri)?;
    datatype_at(number)
}

// Looks at the length and the first byte, which rule out most texts at once.
fn may_be_name(text: &str) -> bool
    ensures { (k : Datatype) → text.now ≡ datatype_name k → IsTrue result }
{
    let bytes = text.as_bytes();
    bytes.len() >= 39 && bytes.len() <= 53
}

fn datatype_table() -> Table<6>
    ensures { result ≡ numbered datatype_name 0 DATATYPES }
{
    datatypes!(rows)
}

fn datatype_at(number: u16) -> Option<Datatype>
    ensures { result ≡ slice_get DATATYPES number }
{
    DATATYPES.get(usize::from(number)).copied()
}
