// The container of a term (JSON-LD 1.1 API, section 4.2.2, step 19).
ghost use Rattle.std.specs.Prelude.{◌≡◌, [], ◌∷◌, IfOk};
ghost use Rattle.std.specs.Option.{option_map, option_and_then};
ghost use Rattle.case_tables.specs.Shape.{shape_of};
ghost use Rattle.ld_model.specs.Tree.{trees_of};
ghost use Rattle.ld_tree.specs.View.{view};
ghost use Rattle.ctx_types.specs.Expansion.{keywords};
ghost use Rattle.ctx_entries.specs.Answers.{Answers};
ghost use Rattle.ctx_model.specs.Definition as steps;
ghost use Rattle.ctx_entries.specs.View.{tree_view};

use case_tables::{Code, Keyword, Shape, container_shape, keyword_of};
use ctx_entries::ContextStop;
use ld_tree::{Text, Tree, Trees};
use std::alloc::{AllocError, Global};

/// The container of a definition, and the type mapping, which `@type` in the container sets where there is none.
pub(crate) fn with_container(
    alloc: Global,
    value: Option<&Tree>,
    kind: Option<Text>,
) -> Result<(Shape, Option<Text>), ContextStop>
    ensures { Answers result (λ c. c) (steps.with_container (tree_view value.entry) kind) }
{
    match value {
        None => Ok((Shape::none(), kind)),
        Some(value) => contained(alloc, container_of(alloc, value)?, kind),
    }
}

fn contained(
    alloc: Global,
    shape: Option<Shape>,
    kind: Option<Text>,
) -> Result<(Shape, Option<Text>), ContextStop>
    ensures { Answers result (λ c. c) (steps.contained kind shape) }
{
    match shape {
        None => Err(ContextStop::Refused(Code::InvalidContainerMapping)),
        Some(shape) => {
            if shape.types {
                let kind = kind_of_types(alloc, kind)?;
                Ok((shape, kind))
            } else {
                Ok((shape, kind))
            }
        }
    }
}

fn kind_of_types(alloc: Global, kind: Option<Text>) -> Result<Option<Text>, ContextStop>
    ensures { Answers result (λ k. k) (steps.kind_of_types kind) }
{
    match kind {
        None => Ok(Some(Text::new(alloc, "@id")?)),
        Some(kind) => {
            if kind.as_str() == "@id" || kind.as_str() == "@vocab" {
                Ok(Some(kind))
            } else {
                Err(ContextStop::Refused(Code::InvalidTypeMapping))
            }
        }
    }
}

fn container_of(alloc: Global, value: &Tree) -> Result<Option<Shape>, AllocError>
    ensures { IfOk result (λ s. s ≡ steps.container_of (view value.now)) }
{
    match value {
        Tree::Items(words) => container_of_words(alloc, words),
        _ => Ok(container_of_word(value)),
    }
}

fn container_of_word(value: &Tree) -> Option<Shape>
    ensures { result ≡ option_and_then shape_of (option_map (λ k. k ∷ []) (steps.word_of (view value.now))) }
{
    let word = word_of(value)?;
    container_shape(&[word])
}

fn container_of_words(alloc: Global, values: &Trees) -> Result<Option<Shape>, AllocError>
    ensures { IfOk result (λ s. s ≡ option_and_then shape_of (steps.all_words (trees_of values.now))) }
{
    let mut words = Vec::with_capacity(alloc, values.len())?;
    for value in values {
        let Some(word) = word_of(value) else {
            return Ok(None);
        };
        words.push(word)?;
    }
    Ok(container_shape(words.as_slice()))
}

fn word_of(value: &Tree) -> Option<Keyword>
    ensures { result ≡ steps.word_of (view value.now) }
{
    match value {
        Tree::Str(text) => word_named(text.as_str()),
        _ => None,
    }
}

fn word_named(text: &str) -> Option<Keyword>
    ensures { result ≡ steps.keyword_at text.now keywords }
{
    keyword_of(text)
}
