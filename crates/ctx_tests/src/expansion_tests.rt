use crate::fixtures::example;
use ctx_types::*;
use std::alloc::{AllocError, Global};
use std::test::Fail;

// A text, whether it is relative to the document, and to the vocabulary, and its IRI.
const CASES: [(&str, &str, bool, bool, Option<&str>); 20] = [
    ("a keyword", "@type", true, true, Some("@type")),
    ("the form of a keyword", "@foo", true, true, None),
    ("no letter", "@", false, true, Some("http://v/@")),
    ("a digit", "@a1", false, true, Some("http://v/@a1")),
    ("a term", "name", true, true, Some("http://e/name")),
    ("no term", "name", true, false, Some("http://e/d/name")),
    ("a term of null", "nil", true, true, None),
    ("no term of null", "nil", false, false, Some("nil")),
    ("an alias", "type", false, false, Some("@type")),
    ("a blank node", "_:b", true, true, Some("_:b")),
    ("an authority", "p://x", true, true, Some("p://x")),
    ("a prefix", "p:x:y", false, false, Some("http://e/p#x:y")),
    ("no prefix flag", "q:x", true, true, Some("q:x")),
    ("a prefix of null", "nil:x", true, true, Some("nil:x")),
    ("an IRI", "urn:x", true, true, Some("urn:x")),
    ("a colon in front", ":x", false, true, Some("http://v/:x")),
    (
        "the first of two",
        ":x:y",
        true,
        true,
        Some("http://e/empty#x:y"),
    ),
    ("vocabulary first", "x", true, true, Some("http://v/x")),
    ("the base", "../x", true, false, Some("http://e/x")),
    ("neither", "x", false, false, Some("x")),
];

// Whether the text expands to this IRI, or to null where it is none.
fn expands_to(
    alloc: Global,
    context: &ActiveContext,
    text: &str,
    (relative, vocab): (bool, bool),
    want: Option<&str>,
) -> Result<bool, AllocError> {
    let iri = expand_iri(alloc, context, text, relative, vocab)?;
    Ok(match (&iri, want) {
        (Some(iri), Some(want)) => iri.as_str() == want,
        (None, None) => true,
        _ => false,
    })
}

#[test]
fn a_text_is_expanded_by_terms_prefixes_vocabulary_and_base(rt: HostRuntime) -> Result<(), Fail> {
    let alloc = rt.alloc();
    let context = example(alloc)?;
    for (name, text, relative, vocab, want) in &CASES {
        let answer = expands_to(alloc, &context, text, (*relative, *vocab), *want)?;
        assert!(rt; answer, "{name}");
    }
    Ok(())
}

#[test]
fn without_base_and_vocabulary_a_text_stays(rt: HostRuntime) -> Result<(), Fail> {
    let alloc = rt.alloc();
    let context = ActiveContext::initial(alloc, None)?;
    assert!(rt; expands_to(alloc, &context, "x", (true, true), Some("x"))?);
    Ok(())
}
