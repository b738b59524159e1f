ghost use Rattle.std.specs.Prelude.{◌≡◌, Some};

use case_tables::Keyword::{Graph, Id, List, Set};
use case_tables::*;

const PAIR: [Row; 2] = [
    Row {
        name: "left",
        number: 7,
    },
    Row {
        name: "right",
        number: 3,
    },
];

#[test]
fn a_table_goes_both_ways(rt: HostRuntime) {
    let table: Table<2> = Table::of(&PAIR);
    assert!(rt; table.find("right") == Some(3));
    assert!(rt; table.find("up").is_none());
    assert!(rt; table.name_of(7) == Some("left"));
    assert!(rt; table.name_of(8).is_none());
}

#[test]
fn a_keyword_is_found_by_its_whole_name(rt: HostRuntime) {
    for (text, keyword) in &[
        ("@type", Some(Keyword::TypeWord)),
        ("@none", Some(Keyword::NoneWord)),
        ("@default", None),
        ("type", None),
    ] {
        assert_eq!(rt; keyword_of(text), *keyword, "{text}");
    }
    assert!(rt; Keyword::TypeWord.name() == "@type");
}

// Each code is found again by its own name.
fn found_again(code: Code) -> Option<Code>
    ensures { result ≡ Some code }
{
    code_of(code.name())
}

#[test]
fn a_code_is_found_by_its_whole_name(rt: HostRuntime) {
    let code = Code::CollidingKeywords;
    assert!(rt; found_again(code) == Some(code));
    assert!(rt; code_of("colliding keywords") == Some(code));
    assert!(rt; code_of("colliding").is_none());
}

#[test]
fn a_datatype_is_found_by_its_iri(rt: HostRuntime) {
    let iri = "http://www.w3.org/1999/02/22-rdf-syntax-ns#JSON";
    assert!(rt; datatype_of(iri) == Some(Datatype::RdfJson));
    assert!(rt; Datatype::RdfJson.name() == iri);
    assert!(rt; datatype_of("http://www.w3.org/2001/XMLSchema#date").is_none());
}

const GRAPHS_BY_ID_IN_SETS: Shape = Shape {
    graph: true,
    id: true,
    index: false,
    language: false,
    list: false,
    set: true,
    types: false,
};

const SHAPES: [(&str, &[Keyword], Option<Shape>); 4] = [
    (
        "three words in any order",
        &[Set, Graph, Id],
        Some(GRAPHS_BY_ID_IN_SETS),
    ),
    ("a list is in no set", &[List, Set], None),
    ("no word at all", &[], None),
    ("a word twice", &[Set, Set], None),
];

#[test]
fn the_words_of_a_container_make_its_shape(rt: HostRuntime) {
    for (name, words, shape) in &SHAPES {
        assert_eq!(rt; container_shape(words), *shape, "{name}");
    }
}
