// Definitions and contexts to test with.
use case_tables::Shape;
use ctx_types::*;
use ld_tree::Text;
use std::alloc::{AllocError, Global};

pub(crate) fn text(alloc: Global, text: &str) -> Result<Option<Text>, AllocError> {
    Ok(Some(Text::new(alloc, text)?))
}

// A definition with no more than a mapping and a prefix flag.
pub(crate) fn defined(mapping: Option<Text>, prefix: bool) -> TermDef {
    TermDef {
        mapping,
        prefix,
        protected: false,
        reverse: false,
        base: None,
        local: None,
        container: Shape::none(),
        side: Slot::Absent,
        index: None,
        language: Slot::Absent,
        nest: None,
        kind: None,
    }
}

// A context with a base IRI, a vocabulary mapping and some terms.
pub(crate) fn example(alloc: Global) -> Result<ActiveContext, AllocError> {
    let base = Text::new(alloc, "http://e/d/f")?;
    let mut context = ActiveContext::initial(alloc, Some(&base))?;
    context.vocab = text(alloc, "http://v/")?;
    put_terms(alloc, &mut context.terms)?;
    Ok(context)
}

fn put_terms(alloc: Global, terms: &mut Terms) -> Result<(), AllocError> {
    for (term, mapping, prefix) in &[
        ("name", "http://e/name", false),
        ("p", "http://e/p#", true),
        ("q", "http://e/q#", false),
        ("type", "@type", false),
        ("", "http://e/empty#", true),
    ] {
        let definition = defined(text(alloc, mapping)?, *prefix);
        terms.set(alloc, Text::new(alloc, term)?, definition)?;
    }
    terms.set(alloc, Text::new(alloc, "nil")?, defined(None, true))
}
