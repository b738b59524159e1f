// Contexts and definitions, each in one line.
use case_tables::Shape;
use ctx_types::{ActiveContext, Side, Slot, TermDef, expand_iri};
use ld_json::{Text, Tree, text_of};
use std::alloc::{AllocError, Global};
use std::str;

/// A definition: the mapping, and then what is not as in a plain one.
pub(crate) fn definition(alloc: Global, definition: &TermDef) -> Result<String, AllocError> {
    let mut out = String::new(alloc);
    append_if(&mut out, definition.mapping.is_none(), "null")?;
    append_text(&mut out, "", &definition.mapping)?;
    append_flags(&mut out, definition)?;
    append_text(&mut out, " type=", &definition.kind)?;
    append_container(&mut out, &definition.container)?;
    append_text(&mut out, " key=", &definition.index)?;
    append_slots(&mut out, definition)?;
    append_text(&mut out, " nest=", &definition.nest)?;
    append_local(alloc, &mut out, &definition.local)?;
    append_text(&mut out, " base=", &definition.base)?;
    Ok(out)
}

/// What a text expands to with the vocabulary.
pub(crate) fn iri(
    alloc: Global,
    context: &ActiveContext,
    text: &str,
) -> Result<String, AllocError> {
    match expand_iri(alloc, context, text, false, true)? {
        Some(iri) => String::from_str(alloc, iri.as_str()),
        None => String::from_str(alloc, "null"),
    }
}

/// The settings and the terms of a context, and those of the contexts before it.
pub(crate) fn context(alloc: Global, context: &ActiveContext) -> Result<String, AllocError> {
    let mut out = String::from_str(alloc, "context")?;
    append_context(&mut out, context)?;
    let mut last = context;
    for _ in 0..u64::MAX {
        let Some(previous) = &last.previous else {
            break;
        };
        last = previous.get();
        out.push_str(", before it")?;
        append_context(&mut out, last)?;
    }
    Ok(out)
}

fn append_context(out: &mut String, context: &ActiveContext) -> Result<(), AllocError> {
    append_text(out, " base=", &context.base)?;
    append_text(out, " vocab=", &context.vocab)?;
    append_text(out, " language=", &context.language)?;
    if let Some(side) = &context.side {
        append_side(out, side)?;
    }
    append_terms(out, context)
}

fn append_terms(out: &mut String, context: &ActiveContext) -> Result<(), AllocError> {
    for number in 0..context.terms.len() {
        if let Some((term, _)) = context.terms.at(number) {
            out.push_str(" ")?;
            out.push_str(term.as_str())?;
        }
    }
    Ok(())
}

fn append_text(out: &mut String, name: &str, text: &Option<Text>) -> Result<(), AllocError> {
    if let Some(text) = text {
        out.push_str(name)?;
        out.push_str(text.as_str())?;
    }
    Ok(())
}

fn append_if(out: &mut String, holds: bool, name: &str) -> Result<(), AllocError> {
    if holds {
        out.push_str(name)?;
    }
    Ok(())
}

fn append_side(out: &mut String, side: &Side) -> Result<(), AllocError> {
    match side {
        Side::Ltr => out.push_str(" side=ltr"),
        Side::Rtl => out.push_str(" side=rtl"),
    }
}

fn append_flags(out: &mut String, definition: &TermDef) -> Result<(), AllocError> {
    append_if(out, definition.prefix, " prefix")?;
    append_if(out, definition.protected, " protected")?;
    append_if(out, definition.reverse, " reverse")
}

fn append_container(out: &mut String, shape: &Shape) -> Result<(), AllocError> {
    for (holds, name) in [
        (shape.graph, " graph"),
        (shape.id, " id"),
        (shape.index, " index"),
        (shape.language, " language"),
        (shape.list, " list"),
        (shape.set, " set"),
        (shape.types, " types"),
    ] {
        append_if(out, holds, name)?;
    }
    Ok(())
}

fn append_slots(out: &mut String, definition: &TermDef) -> Result<(), AllocError> {
    match &definition.language {
        Slot::Absent => {}
        Slot::Null => out.push_str(" language=null")?,
        Slot::Is(text) => {
            out.push_str(" language=")?;
            out.push_str(text.as_str())?;
        }
    }
    match &definition.side {
        Slot::Absent => Ok(()),
        Slot::Null => out.push_str(" side=null"),
        Slot::Is(side) => append_side(out, side),
    }
}

fn append_local(alloc: Global, out: &mut String, local: &Option<Tree>) -> Result<(), AllocError> {
    let Some(local) = local else {
        return Ok(());
    };
    let bytes = text_of(alloc, local)?;
    out.push_str(" context=")?;
    match str::from_utf8(bytes.as_slice()) {
        Ok(text) => out.push_str(text),
        Err(_) => Ok(()),
    }
}
