// IRI expansion.
ghost use Rattle.std.specs.Prelude.{◌≡◌, ◌++◌, Option, IfOk};
ghost use Rattle.std.specs.Char.{is_ascii_alphabetic};
ghost use Rattle.std.specs.List.{list_all, list_any};
ghost use Rattle.std.specs.Option.{option_map, option_map_or, option_and_then};
ghost use Rattle.iri_ref.specs.Parts.{colon};
ghost use Rattle.ctx_types.specs.Context.{definition_at};
ghost use Rattle.ctx_types.specs.ContextView.{settings_view};
ghost use Rattle.ctx_types.specs.View.{definition_view};
ghost use Rattle.ctx_types.specs.Expansion as steps;

use crate::context::ActiveContext;
use crate::definition::TermDef;
use case_tables::keyword_of;
use iri_ref::{has_scheme, resolve};
use ld_tree::Text;
use std::alloc::{AllocError, Global};

/// What a text stands for in a context (JSON-LD 1.1 API, section 5.2.2, with no local context): an IRI, a blank node
/// identifier, a keyword, or None, which is null.
///
/// With `vocab` a term stands for its mapping, and a text that is neither a term nor an IRI is put behind the vocabulary
/// mapping. With `doc_relative` such a text is resolved against the context's base IRI, where it has one. It takes a time
/// that grows with the text's length and the logarithm of the number of terms.
pub fn expand_iri(
    alloc: Global,
    context: &ActiveContext,
    text: &str,
    doc_relative: bool,
    vocab: bool,
) -> Result<Option<Text>, AllocError>
    ensures { IfOk result (λ iri. iri ≡ steps.expand_iri (settings_view context.now) doc_relative vocab text.now) }
{
    if is_keyword(text) {
        return Ok(Some(Text::new(alloc, text)?));
    }
    if has_keyword_form(text) {
        return Ok(None);
    }
    match by_definition(vocab, context.terms.get(text))? {
        Some(mapping) => Ok(mapping),
        None => Ok(Some(as_iri(alloc, context, text, doc_relative, vocab)?)),
    }
}

/// Whether a text is one of the keywords (JSON-LD 1.1, section 1.7).
pub fn is_keyword(text: &str) -> bool
    ensures { result ≡ steps.is_keyword text.now }
{
    keyword_of(text).is_some()
}

/// Whether a text has the form of a keyword: `@` and one or more ASCII letters. Keywords have it, and so do texts that are
/// none.
pub fn has_keyword_form(text: &str) -> bool
    ensures { result ≡ steps.has_keyword_form text.now }
{
    match text.as_bytes().split_first() {
        Some((first, rest)) => *first == b'@' && !rest.is_empty() && has_letters_alone(rest),
        None => false,
    }
}

fn has_letters_alone(bytes: &[u8]) -> bool
    ensures { result ≡ list_all is_ascii_alphabetic bytes.now }
{
    bytes.iter().all(|byte| byte.is_ascii_alphabetic())
}

/// What a text stands for where it is a term with this definition: steps 4 and 5 of IRI expansion. None where the term does
/// not stand for it, and Some(None) where it stands for null.
pub fn by_definition(
    vocab: bool,
    definition: Option<&TermDef>,
) -> Result<Option<Option<Text>>, AllocError>
    ensures { IfOk result (λ iri. iri ≡ steps.by_definition vocab (option_map (λ d. definition_view d.now) definition.entry)) }
{
    match definition {
        None => Ok(None),
        Some(definition) => match &definition.mapping {
            None => Ok(if vocab { Some(None) } else { None }),
            Some(iri) => {
                if vocab || is_keyword(iri.as_str()) {
                    Ok(Some(Some(iri.copy()?)))
                } else {
                    Ok(None)
                }
            }
        },
    }
}

/// What a text stands for where no term does: steps 6 to 9 of IRI expansion.
pub fn as_iri(
    alloc: Global,
    context: &ActiveContext,
    text: &str,
    doc_relative: bool,
    vocab: bool,
) -> Result<Text, AllocError>
    ensures { IfOk result (λ iri. iri ≡ steps.as_iri (settings_view context.now) doc_relative vocab text.now) }
{
    if let Some(iri) = by_colon(alloc, context, text)? {
        return Ok(iri);
    }
    if let Some(iri) = by_vocab(alloc, context, vocab, text)? {
        return Ok(iri);
    }
    by_base(alloc, &context.base, doc_relative, text)
}

// A text with a colon, as a compact IRI or an IRI: step 6.
fn by_colon(alloc: Global, context: &ActiveContext, text: &str) -> Result<Option<Text>, AllocError>
    ensures { IfOk result (λ iri. iri ≡ option_and_then (steps.by_parts (settings_view context.now) text.now) (steps.colon_parts text.now)) }
{
    match colon_parts(text) {
        None => Ok(None),
        Some((prefix, suffix)) => by_parts(alloc, context, text, prefix, suffix),
    }
}

fn by_parts(
    alloc: Global,
    context: &ActiveContext,
    text: &str,
    prefix: &str,
    suffix: &str,
) -> Result<Option<Text>, AllocError>
    ensures { IfOk result (λ iri. iri ≡ steps.by_parts (settings_view context.now) text.now (prefix.now, suffix.now)) }
{
    if is_whole(prefix, suffix) {
        return Ok(Some(Text::new(alloc, text)?));
    }
    match by_prefix(alloc, suffix, context.terms.get(prefix))? {
        Some(iri) => Ok(Some(iri)),
        None => by_form(alloc, text),
    }
}

/// What stands before the first colon of a text and behind it, where a colon stands after its first character: steps 6 and
/// 6.1 of IRI expansion.
pub fn colon_parts(text: &str) -> Option<(&str, &str)>
    ensures { option_map (λ p. (p.0.now, p.1.now)) result ≡ steps.colon_parts text.now }
{
    match text.split_once(':') {
        Some((prefix, suffix)) => {
            if prefix.is_empty() && !has_colon(suffix) {
                None
            } else {
                Some((prefix, suffix))
            }
        }
        None => None,
    }
}

fn has_colon(text: &str) -> bool
    ensures { result ≡ list_any colon text.now }
{
    text.bytes().any(|byte| byte == b':')
}

/// Whether these parts of a text are those of a blank node identifier, or of an IRI with an authority: step 6.2 of IRI
/// expansion.
pub fn is_whole(prefix: &str, suffix: &str) -> bool
    ensures { result ≡ steps.is_whole (prefix.now, suffix.now) }
{
    prefix == "_" || suffix.starts_with("//")
}

fn by_prefix(
    alloc: Global,
    suffix: &str,
    definition: Option<&TermDef>,
) -> Result<Option<Text>, AllocError>
    ensures { IfOk result (λ iri. iri ≡ steps.by_prefix suffix.now (option_map (λ d. definition_view d.now) definition.entry)) }
{
    match definition {
        None => Ok(None),
        Some(definition) => match &definition.mapping {
            None => Ok(None),
            Some(iri) => {
                if definition.prefix {
                    Ok(Some(joined(alloc, iri.as_str(), suffix)?))
                } else {
                    Ok(None)
                }
            }
        },
    }
}

fn by_form(alloc: Global, text: &str) -> Result<Option<Text>, AllocError>
    ensures { IfOk result (λ iri. iri ≡ steps.by_form text.now) }
{
    if has_scheme(text) {
        Ok(Some(Text::new(alloc, text)?))
    } else {
        Ok(None)
    }
}

fn by_vocab(
    alloc: Global,
    context: &ActiveContext,
    vocab: bool,
    text: &str,
) -> Result<Option<Text>, AllocError>
    ensures { IfOk result (λ iri. iri ≡ steps.by_vocab (settings_view context.now) vocab text.now) }
{
    match &context.vocab {
        None => Ok(None),
        Some(mapping) => {
            if vocab {
                Ok(Some(joined(alloc, mapping.as_str(), text)?))
            } else {
                Ok(None)
            }
        }
    }
}

fn by_base(
    alloc: Global,
    base: &Option<Text>,
    doc_relative: bool,
    text: &str,
) -> Result<Text, AllocError>
    ensures { IfOk result (λ iri. iri ≡ steps.by_base base.now doc_relative text.now) }
{
    match base {
        Some(base) if doc_relative => resolve(alloc, base.as_str(), text),
        _ => Text::new(alloc, text),
    }
}

/// A text and another behind it.
pub fn joined(alloc: Global, front: &str, rest: &str) -> Result<Text, AllocError>
    ensures { IfOk result (λ t. t ≡ front.now ++ rest.now) }
{
    let mut string = String::with_capacity(alloc, front.len() + rest.len())?;
    string.push_str(front)?;
    string.push_str(rest)?;
    Ok(Text::from_string(string)?)
}
