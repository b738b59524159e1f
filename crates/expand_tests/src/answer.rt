// What the call of a case gives.
use crate::case::{AddCase, Case, FinishCase, RangeCase, ValueCase};
use crate::cutting::plan_text;
use case_tables::Code;
use ctx_process::{ContextStop, Flags, process};
use ctx_store::Store;
use ctx_types::ActiveContext;
use expand_parts::{PartStop, add_value, expand_value, finish_map};
use ld_json::{
    Members, Place, ReadRefusal, Step, Text, Tree, Trees, pointer_of, read_tree, text_of,
};
use std::alloc::{AllocError, Global};
use tree_expand::{ExpandStop, expand_range};

/// The flags of a context that no scoped context brought in.
const PLAIN: Flags = Flags {
    override_protected: false,
    propagate: true,
    validate_scoped: true,
};

/// Why a case gives no value.
#[derive(Drop)]
enum Stop {
    /// The call refuses, with this code.
    Refused(Code),
    /// The call refuses, with this code at this place.
    RefusedAt(Code, Place),
    /// A field isn't what it is to be.
    NoCase,
    /// Memory was refused.
    OutOfMemory,
}

impl From<AllocError> for Stop {
    fn from(_error: AllocError) -> Stop {
        Stop::OutOfMemory
    }
}

impl From<ReadRefusal> for Stop {
    fn from(refusal: ReadRefusal) -> Stop {
        match refusal {
            ReadRefusal::OutOfMemory => Stop::OutOfMemory,
            _ => Stop::NoCase,
        }
    }
}

impl From<ContextStop> for Stop {
    fn from(stop: ContextStop) -> Stop {
        match stop {
            ContextStop::Refused(_) => Stop::NoCase,
            ContextStop::OutOfMemory => Stop::OutOfMemory,
        }
    }
}

impl From<PartStop> for Stop {
    fn from(stop: PartStop) -> Stop {
        match stop {
            PartStop::Refused(code) => Stop::Refused(code),
            PartStop::OutOfMemory => Stop::OutOfMemory,
        }
    }
}

impl From<ExpandStop> for Stop {
    fn from(stop: ExpandStop) -> Stop {
        match stop {
            ExpandStop::Refused { code, place } => Stop::RefusedAt(code, place),
            ExpandStop::OutOfMemory => Stop::OutOfMemory,
        }
    }
}

/// The answer to a case, in one line.
pub(crate) fn answer(alloc: Global, store: &Store, case: &Case<'_>) -> Result<String, AllocError> {
    match given_text(alloc, store, case) {
        Ok(text) => Ok(text),
        Err(stop) => stop_text(alloc, stop),
    }
}

fn given_text(alloc: Global, store: &Store, case: &Case<'_>) -> Result<String, Stop> {
    if let Case::Cut(cut) = case {
        let text = plan_text(alloc, store, cut)?;
        return match text {
            Some(text) => Ok(text),
            None => Err(Stop::NoCase),
        };
    }
    match given(alloc, store, case)? {
        Some(tree) => Ok(tree_text(alloc, &tree)?),
        None => Ok(String::from_str(alloc, "nothing")?),
    }
}

/// What the call of a case gives.
fn given(alloc: Global, store: &Store, case: &Case<'_>) -> Result<Option<Tree>, Stop> {
    match case {
        Case::Range(range) => Ok(Some(range_given(alloc, store, range)?)),
        Case::Value(value) => value_given(alloc, store, value),
        Case::Add(add) => Ok(Some(added(alloc, add)?)),
        Case::Finish(finish) => finished(alloc, finish),
        Case::Cut(_) => Err(Stop::NoCase),
    }
}

fn range_given(alloc: Global, store: &Store, case: &RangeCase<'_>) -> Result<Tree, Stop> {
    let base = text_in(alloc, case.base)?;
    let context = context_of(alloc, case.contexts, base.as_ref(), store)?;
    range_in(alloc, store, &context, base.as_ref(), case)
}

/// What a range comes to in this context.
fn range_in(
    alloc: Global,
    store: &Store,
    context: &ActiveContext,
    base: Option<&Text>,
    case: &RangeCase<'_>,
) -> Result<Tree, Stop> {
    let property = text_in(alloc, case.property)?;
    let place = place_of(alloc, case.place)?;
    let items = items_of(read_tree(alloc, case.items.as_bytes())?)?;
    if case.first.checked_add(items.len() as u64).is_none() {
        return Err(Stop::NoCase);
    }
    let expanded = expand_range(
        alloc,
        context,
        property.as_ref(),
        items.as_slice(),
        case.first,
        case.from_map,
        base,
        store,
        &place,
    )?;
    Ok(Tree::Items(expanded))
}

fn value_given(alloc: Global, store: &Store, case: &ValueCase<'_>) -> Result<Option<Tree>, Stop> {
    let base = text_in(alloc, case.base)?;
    let context = context_of(alloc, case.contexts, base.as_ref(), store)?;
    value_in(alloc, &context, case)
}

/// What a value comes to in this context.
fn value_in(
    alloc: Global,
    context: &ActiveContext,
    case: &ValueCase<'_>,
) -> Result<Option<Tree>, Stop> {
    let property = Text::new(alloc, case.property)?;
    let value = read_tree(alloc, case.value.as_bytes())?;
    Ok(expand_value(alloc, context, &property, &value)?)
}

fn added(alloc: Global, case: &AddCase<'_>) -> Result<Tree, Stop> {
    let key = Text::new(alloc, case.key)?;
    let map = members_of(read_tree(alloc, case.map.as_bytes())?)?;
    let value = read_tree(alloc, case.value.as_bytes())?;
    let map = add_value(alloc, map, &key, value, case.as_array)?;
    Ok(Tree::Map(map))
}

fn finished(alloc: Global, case: &FinishCase<'_>) -> Result<Option<Tree>, Stop> {
    let property = text_in(alloc, case.property)?;
    let map = members_of(read_tree(alloc, case.map.as_bytes())?)?;
    Ok(finish_map(alloc, map, property.as_ref())?)
}

fn text_in(alloc: Global, field: Option<&str>) -> Result<Option<Text>, AllocError> {
    match field {
        Some(text) => Ok(Some(Text::new(alloc, text)?)),
        None => Ok(None),
    }
}

/// The context that these local contexts make, one after another.
fn context_of(
    alloc: Global,
    locals: &str,
    base: Option<&Text>,
    store: &Store,
) -> Result<ActiveContext, Stop> {
    let mut context = ActiveContext::initial(alloc, base)?;
    for local in locals.split(" then ") {
        let local = read_tree(alloc, local.as_bytes())?;
        context = process(alloc, &context, &local, base, store, PLAIN)?;
    }
    Ok(context)
}

fn items_of(tree: Tree) -> Result<Trees, Stop> {
    match tree {
        Tree::Items(items) => Ok(items),
        _ => Err(Stop::NoCase),
    }
}

fn members_of(tree: Tree) -> Result<Members, Stop> {
    match tree {
        Tree::Map(members) => Ok(members),
        _ => Err(Stop::NoCase),
    }
}

/// The place that an array of keys and numbers says.
fn place_of(alloc: Global, text: &str) -> Result<Place, Stop> {
    let mut place = Place::new(alloc);
    for step in items_of(read_tree(alloc, text.as_bytes())?)? {
        place.push(step_of(step)?)?;
    }
    Ok(place)
}

fn step_of(tree: Tree) -> Result<Step, Stop> {
    match tree {
        Tree::Str(key) => Ok(Step::Key(key)),
        Tree::Whole(number) => match u64::try_from(number) {
            Ok(number) => Ok(Step::Item(number)),
            Err(_) => Err(Stop::NoCase),
        },
        _ => Err(Stop::NoCase),
    }
}

fn tree_text(alloc: Global, tree: &Tree) -> Result<String, AllocError> {
    let bytes = text_of(alloc, tree)?;
    String::from_str(alloc, str::from_utf8(bytes.as_slice()).unwrap_or("no text"))
}

fn stop_text(alloc: Global, stop: Stop) -> Result<String, AllocError> {
    match stop {
        Stop::Refused(code) => String::from_str(alloc, code.name()),
        Stop::RefusedAt(code, place) => {
            let name = code.name();
            let pointer = pointer_of(alloc, &place)?;
            let pointer = pointer.as_str();
            format!(in alloc; "{name} at {pointer}")
        }
        Stop::NoCase => String::from_str(alloc, "no case"),
        Stop::OutOfMemory => String::from_str(alloc, "out of memory"),
    }
}
