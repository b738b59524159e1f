//! Laws of context processing and term creation (JSON-LD 1.1 API, sections 4.1 and 4.2), as `ctx_model` defines them.
//!
//! There is no code here. Each function does nothing, and its contract is one law, which `specs/Laws.antt` states in the
//! words of `specs/Statements.antt`.
#![tactic(auto)]

ghost use Rattle.ctx_laws.specs.Laws.{ImportsGiveWay, ItemsGoInTurn, KeysAreEnough, NothingChangesNothing, NullBeginsAnew, ProtectedTermsStay};

/// In an item with an import, an entry of the import gives way to the item's own entry of that key, and every other one
/// stands as if it were written in the item (section 4.1.2, step 5.6.8). This is said of what stands at each key, and of the
/// order of the keys, for own entries and imported ones in ascending order.
pub fn imports_give_way()
    ensures { ImportsGiveWay }
{}

/// An empty map and an empty array change nothing (section 4.1.2). Where the call does not propagate, the context remembers
/// the active one as its previous context, if it has none yet (step 3).
pub fn nothing_changes_nothing()
    ensures { NothingChangesNothing }
{}

/// Null is refused exactly where the active context has a protected term and protected terms may not be overridden. Else it
/// gives a newly initialized context, with the original base URL of the active one as its base and its original base URL
/// (section 4.1.2, step 5.1). Where the call does not propagate, its previous contexts are the active one and that one's own
/// previous contexts; where it has none, it stands there twice, since step 3 made it its own previous context.
pub fn null_begins_anew()
    ensures { NullBeginsAnew }
{}

/// The items of an array are processed one after another (section 4.1.2, step 5): processing `[a, b]` is processing `a`, and
/// then `b` over what came of it, where neither is an array and neither has a `@propagate` that says other than the call, and
/// where the two parts may stand apart.
///
/// They may where the call propagates, or `a` gives a context with a previous one; and where `b` is no null, or protected
/// terms may be overridden, or `a` gives protected terms just where the active context has some. In the other cases the
/// standard itself may tell the two apart: an array in an array is refused; step 2 looks at `@propagate` in the local context
/// alone, and not in the items of an array; step 3 is done once for an array; and step 5.1.1 looks for protected terms in the
/// context that was handed in, and not in what came of the items before.
pub fn items_go_in_turn()
    ensures { ItemsGoInTurn }
{}

/// The number by which the definition of term creation ends its recursion has no say in the outcome (section 4.2.2). For a term
/// that is a key of the local context, any number from that of the keys of which `defined` says nothing yet gives the same; and
/// for all entries of a local context, one after another, any number from theirs, which is the one that context processing
/// takes. So no `cyclic IRI mapping` (step 1) would go away with a greater number.
pub fn keys_are_enough()
    ensures { KeysAreEnough }
{}

/// A protected term of the active context keeps its definition, and stays protected, whatever local context is processed: null
/// is refused, and so is a definition that differs in more than protection (section 4.1.2, step 5.1.1, and section 4.2.2, step
/// 27). This holds of the items of an array, of imports, and of contexts behind an IRI. Scoped contexts are only tried, and
/// change nothing.
///
/// These are all the cases in which it may not keep it. The call says that protected terms may be overridden, as it does for the
/// scoped context of a property, and an item is null or a map: a context behind an IRI keeps protected terms even then. Or an
/// item has for the term a value for which term creation returns before it looks at protection: one with a `@reverse` (step 13),
/// which makes the term a reverse property, or leaves it without a definition where the value of `@reverse` is in the form of a
/// keyword; or one whose `@id` is in the form of a keyword and none (step 14.2.2), which leaves it without a definition. The law
/// asks this of the local context and of every context that the store gives. And it is a law of the terms of the context that was
/// handed in: a term that an earlier item of the same array protects may be lost to a null behind it.
pub fn protected_terms_stay()
    ensures { ProtectedTermsStay }
{}
