use crate::fixtures::{defined, example, text};
use ctx_types::*;
use ld_tree::{Text, Tree};
use std::alloc::{AllocError, Global};
use std::process::Abort;
use std::test::Fail;

// The term with this number, and its mapping.
fn mapping_at(terms: &Terms, number: usize) -> Option<(&str, &str)> {
    let (term, definition) = terms.at(number)?;
    match &definition.mapping {
        Some(iri) => Some((term.as_str(), iri.as_str())),
        None => None,
    }
}

// Sets a term to a definition with this mapping.
fn set(alloc: Global, terms: &mut Terms, term: &str, mapping: &str) -> Result<(), AllocError> {
    let definition = defined(text(alloc, mapping)?, false);
    terms.set(alloc, Text::new(alloc, term)?, definition)
}

#[test]
fn a_copy_keeps_its_terms_when_another_changes(rt: HostRuntime) -> Result<(), Fail> {
    let alloc = rt.alloc();
    let mut terms = Terms::new();
    for term in &["b", "a", "c"] {
        set(alloc, &mut terms, term, "e:1")?;
    }
    let copy = terms.copy()?;
    set(alloc, &mut terms, "a", "e:2")?;
    let removed = terms.remove(alloc, "b")?;
    assert!(rt; removed.is_some() && terms.len() == 2 && copy.len() == 3);
    assert!(rt; mapping_at(&terms, 0) == Some(("a", "e:2")));
    assert!(rt; mapping_at(&copy, 1) == Some(("b", "e:1")));
    Ok(())
}

// A name for a number below 900,000: the names are in the order of the numbers.
fn name(alloc: Global, number: usize) -> Result<Text, AllocError> {
    let name = format!(in alloc; "{}", number.wrapping_add(100_000))?;
    Text::new(alloc, &name)
}

// 4096 terms, each with its name for a mapping, put in an order that goes on by this step.
fn numbered(alloc: Global, step: usize) -> Result<Terms, AllocError> {
    let mut terms = Terms::new();
    let mut number = 0usize;
    for _ in 0..4096 {
        let definition = defined(Some(name(alloc, number)?), false);
        terms.set(alloc, name(alloc, number)?, definition)?;
        number = number.wrapping_add(step) % 4096;
    }
    Ok(terms)
}

// Removes the terms of odd numbers, in an order that goes on by twice this step, and answers how many were there.
fn remove_odd(alloc: Global, terms: &mut Terms, step: usize) -> Result<usize, AllocError> {
    let mut removed = 0usize;
    let mut number = 1usize;
    for _ in 0..2048 {
        if terms
            .remove(alloc, name(alloc, number)?.as_str())?
            .is_some()
        {
            removed = removed.wrapping_add(1);
        }
        number = number.wrapping_add(step).wrapping_add(step) % 4096;
    }
    Ok(removed)
}

// The term of an even number stands in both, and that of the odd number behind it in the copy alone.
fn check_pair<R: Abort>(
    rt: &R,
    alloc: Global,
    terms: &Terms,
    copy: &Terms,
    number: usize,
) -> Result<(), AllocError> {
    let even = name(alloc, number.wrapping_mul(2))?;
    let odd = name(alloc, number.wrapping_mul(2).wrapping_add(1))?;
    let named = Some((even.as_str(), even.as_str()));
    assert!(rt; mapping_at(terms, number) == named, "{number}");
    assert!(rt;
        mapping_at(copy, number.wrapping_mul(2)) == named,
        "{number}"
    );
    assert!(rt; terms.get(even.as_str()).is_some() && copy.get(even.as_str()).is_some());
    assert!(rt; terms.get(odd.as_str()).is_none() && copy.get(odd.as_str()).is_some());
    Ok(())
}

#[test]
fn many_terms_are_put_and_taken_in_any_order(rt: HostRuntime) -> Result<(), Fail> {
    let alloc = rt.alloc();
    for step in &[1usize, 2741, 4095] {
        let mut terms = numbered(alloc, *step)?;
        let copy = terms.copy()?;
        let removed = remove_odd(alloc, &mut terms, *step)?;
        assert!(rt;
            removed == 2048 && terms.len() == 2048 && copy.len() == 4096,
            "{step}"
        );
        for number in 0..2048usize {
            check_pair(&rt, alloc, &terms, &copy, number)?;
        }
    }
    Ok(())
}

// The definition of the mapping `e:1`, changed in one way.
fn changed(alloc: Global, way: &str) -> Result<TermDef, AllocError> {
    let mut other = defined(text(alloc, "e:1")?, way == "the prefix flag");
    match way {
        "protection" => other.protected = true,
        "another mapping" => other.mapping = text(alloc, "e:2")?,
        "a scoped context" => other.local = Some(Tree::Null),
        "a language of null" => other.language = Slot::Null,
        "a direction" => other.side = Slot::Is(Side::Rtl),
        _ => {}
    }
    Ok(other)
}

#[test]
fn definitions_are_compared_in_all_but_protection(rt: HostRuntime) -> Result<(), Fail> {
    let alloc = rt.alloc();
    let plain = defined(text(alloc, "e:1")?, false);
    for (way, same) in &[
        ("protection", true),
        ("another mapping", false),
        ("the prefix flag", false),
        ("a scoped context", false),
        ("a language of null", false),
        ("a direction", false),
    ] {
        let other = changed(alloc, way)?;
        assert_eq!(rt; plain.same_but_protected(&other), *same, "{way}");
    }
    Ok(())
}

#[test]
fn a_long_row_of_contexts_is_copied_and_let_go(rt: HostRuntime) -> Result<(), Fail> {
    let alloc = rt.alloc();
    let mut context = example(alloc)?;
    for _ in 0..200_000 {
        let previous = Previous::new(alloc, context)?;
        context = ActiveContext::initial(alloc, None)?;
        context.previous = Some(previous);
    }
    let copy = context.copy(alloc)?;
    assert!(rt; copy.previous.is_some() && copy.base.is_none());
    Ok(())
}
