// The fields of a case.

/// A call, with what it is made on as texts.
#[derive(Clone, Copy)]
pub(crate) enum Case<'a> {
    /// Some items of an array are expanded.
    Range(RangeCase<'a>),
    /// A scalar is expanded for a property.
    Value(ValueCase<'a>),
    /// A value is added to an entry of a map.
    Add(AddCase<'a>),
    /// The entries of a map are tested.
    Finish(FinishCase<'a>),
    /// A document is cut.
    Cut(CutCase<'a>),
}

/// A call of `expand_range`.
#[derive(Clone, Copy)]
pub(crate) struct RangeCase<'a> {
    /// The number of the first item.
    pub(crate) first: u64,
    /// The active property.
    pub(crate) property: Option<&'a str>,
    /// The flag from map.
    pub(crate) from_map: bool,
    /// The place of the array.
    pub(crate) place: &'a str,
    /// The base URL.
    pub(crate) base: Option<&'a str>,
    /// The contexts.
    pub(crate) contexts: &'a str,
    /// The items.
    pub(crate) items: &'a str,
}

/// A call of `expand_value`.
#[derive(Clone, Copy)]
pub(crate) struct ValueCase<'a> {
    /// The property.
    pub(crate) property: &'a str,
    /// The base URL.
    pub(crate) base: Option<&'a str>,
    /// The contexts.
    pub(crate) contexts: &'a str,
    /// The value.
    pub(crate) value: &'a str,
}

/// A call of `add_value`.
#[derive(Clone, Copy)]
pub(crate) struct AddCase<'a> {
    /// Whether the entry becomes an array.
    pub(crate) as_array: bool,
    /// The key.
    pub(crate) key: &'a str,
    /// The map.
    pub(crate) map: &'a str,
    /// The value.
    pub(crate) value: &'a str,
}

/// A call of `finish_map`.
#[derive(Clone, Copy)]
pub(crate) struct FinishCase<'a> {
    /// The active property.
    pub(crate) property: Option<&'a str>,
    /// The map.
    pub(crate) map: &'a str,
}

/// Calls of `cut` and `is_legal`.
#[derive(Clone, Copy)]
pub(crate) struct CutCase<'a> {
    /// The weight.
    pub(crate) weight: u64,
    /// The base URL.
    pub(crate) base: Option<&'a str>,
    /// The document.
    pub(crate) document: &'a str,
}

/// The case that a line says; None where it says none.
pub(crate) fn case_of(line: &str) -> Option<Case<'_>> {
    let (word, fields) = line.split_once('\t')?;
    match word {
        "range" => Some(Case::Range(range_of(fields)?)),
        "value" => Some(Case::Value(value_of(fields)?)),
        "add" => Some(Case::Add(add_of(fields)?)),
        "finish" => Some(Case::Finish(finish_of(fields)?)),
        "cut" => Some(Case::Cut(cut_of(fields)?)),
        _ => None,
    }
}

fn range_of(fields: &str) -> Option<RangeCase<'_>> {
    let (first, rest) = fields.split_once('\t')?;
    let (property, rest) = rest.split_once('\t')?;
    let (flag, rest) = rest.split_once('\t')?;
    let (place, rest) = rest.split_once('\t')?;
    let (base, rest) = rest.split_once('\t')?;
    let (contexts, items) = rest.split_once('\t')?;
    Some(RangeCase {
        first: first.parse().ok()?,
        property: field(property),
        from_map: flag == "map",
        place,
        base: field(base),
        contexts,
        items,
    })
}

fn value_of(fields: &str) -> Option<ValueCase<'_>> {
    let (property, rest) = fields.split_once('\t')?;
    let (base, rest) = rest.split_once('\t')?;
    let (contexts, value) = rest.split_once('\t')?;
    Some(ValueCase {
        property,
        base: field(base),
        contexts,
        value,
    })
}

fn add_of(fields: &str) -> Option<AddCase<'_>> {
    let (flag, rest) = fields.split_once('\t')?;
    let (key, rest) = rest.split_once('\t')?;
    let (map, value) = rest.split_once('\t')?;
    Some(AddCase {
        as_array: flag == "array",
        key,
        map,
        value,
    })
}

fn finish_of(fields: &str) -> Option<FinishCase<'_>> {
    let (property, map) = fields.split_once('\t')?;
    Some(FinishCase {
        property: field(property),
        map,
    })
}

fn cut_of(fields: &str) -> Option<CutCase<'_>> {
    let (weight, rest) = fields.split_once('\t')?;
    let (base, document) = rest.split_once('\t')?;
    Some(CutCase {
        weight: weight.parse().ok()?,
        base: field(base),
        document,
    })
}

/// A field that may be absent.
fn field(text: &str) -> Option<&str> {
    match text {
        "-" => None,
        _ => Some(text),
    }
}
