//! Laws of expansion (JSON-LD 1.1 API, section 5.1), as `expand_model` defines it.
//!
//! There is no code here. Each function does nothing, and its contract is one law, which `specs/Laws.antt` states in the
//! words of `specs/Statements.antt` and `specs/Objects.antt`.
#![tactic(auto)]

ghost use Rattle.expand_laws.specs.Laws.{APlainDocumentExpandsToItself, ItemsExpandInTurn, OnlyNodeObjectsStandAtTheTop, OutcomeIsMadeOfObjects, PlainDocumentsFlattenAlike};

/// What a document expands to has node objects alone as its items: no null, scalar or array, and no map that is a value
/// object, a list object or a set object (JSON-LD 1.1 API, section 5.1.2, steps 4.1, 13.4.5, 17.2 and 19; section 9.1.2, expand).
/// This holds of any JSON value, any base URL and any contexts.
pub fn only_node_objects_stand_at_the_top()
    ensures { OnlyNodeObjectsStandAtTheTop }
{}

/// A plain document is already expanded: it expands to itself, but for the items that have just an id, which say nothing and
/// are dropped (JSON-LD 1.1 API, section 5.1.2, step 19). Values, references, ids, properties and the order of items and entries
/// stay as they are, whatever the base URL is.
///
/// This holds of documents whose items have their keys in ascending order, each once, since entries are taken and put in that
/// order; no other map in a plain document has more than one entry. No other premise is needed: a plain document's ids and
/// properties have the form of an IRI, so there is no blank node identifier and nothing to resolve, and a colon or `//` in them
/// does no harm where no term is defined.
pub fn a_plain_document_expands_to_itself()
    ensures { APlainDocumentExpandsToItself }
{}

/// What a document expands to is made of value objects, list objects and node objects alone, down to its last entry: outside JSON
/// literals there is no other map, no null, no scalar that is an item, and no array in an array (JSON-LD 1.1 API, section 5.1.2).
/// This holds of any JSON value, any base URL and any contexts.
///
/// In each map the keys ascend, and none stands twice. A value object has `@value`, and beside it texts at `@direction`, `@index`,
/// `@language` and `@type` alone; its value is null in a JSON literal alone (steps 15 and 13.4.7). A list object has `@list`,
/// an array of items, and perhaps `@index` (step 17). Each entry of a node object is a keyword with what it may have, or a property,
/// whose key has a colon and whose value is an array of items; `@type` is an array of texts, and `@included` one of node objects
/// (steps 13.4, 13.14 and 16). In `@reverse` stands a map of properties with arrays of items, none of which is a value object or a
/// list object (step 13.13).
///
/// There is one exception, which the standard itself makes: an item of a map of indexes has what its index adds (step 13.8.3.7),
/// and may so be of no kind. `@id` and `@type` may come into a value object or a list object. An index that is the value of a
/// property may come into a list object; and its key, which expanded to an IRI where the container was defined, may be a keyword
/// or a text without a colon where the container is used. The array that stands there then begins with the index, and goes on
/// with what stood at that key. No value object gets such an index.
pub fn outcome_is_made_of_objects()
    ensures { OutcomeIsMadeOfObjects }
{}

/// The items of a document are expanded one by one, and none has a say in what another one comes to (JSON-LD 1.1 API, section
/// 5.1.2, step 5). A document that is an array may be cut anywhere: the outcome of the first part comes before that of the second;
/// if the first part is refused, so is the whole, with its error at its place; and else, if the second part is, with that error, at
/// its place in the whole.
pub fn items_expand_in_turn()
    ensures { ItemsExpandInTurn }
{}

/// Flattening with expansion before it gives for a plain document what flattening alone gives (JSON-LD 1.1 API, section 9.1.3,
/// flatten, which expands first). So what is known of `flatten` on plain documents, as `flatten_laws` states it, holds of what
/// they expand to. As above, the items have their keys in ascending order, each once.
pub fn plain_documents_flatten_alike()
    ensures { PlainDocumentsFlattenAlike }
{}
