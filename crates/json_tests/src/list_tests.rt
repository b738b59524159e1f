// Members, values and places keep what is put into them.
use ld_json::{Members, Place, Step, Text, Tree, Trees, text_of};
use std::alloc::{AllocError, Global};
use std::test::Fail;

fn some_members(alloc: Global) -> Result<Members, AllocError> {
    let mut members = Members::new(alloc);
    for case in &[("b", "1"), ("d", "2"), ("a", "3"), ("b", "4"), ("c", "5")] {
        let (key, value) = *case;
        members.set(Text::new(alloc, key)?, Tree::Str(Text::new(alloc, value)?))?;
    }
    members.put(alloc, "bb", Tree::OneOne)?;
    members.put(alloc, "d", Tree::Whole(6))?;
    Ok(members)
}

#[test]
fn members_stay_in_the_order_of_their_keys(rt: HostRuntime) -> Result<(), Fail> {
    let members = some_members(rt.alloc())?;
    assert!(rt; members.len() == 5 && !members.is_empty());
    assert!(rt; matches!(members.get("d"), Some(Tree::Whole(6))));
    assert!(rt; members.get("dd").is_none() && members.at(5).is_none());
    assert!(rt; matches!(members.at(2), Some((key, Tree::OneOne)) if key.as_str() == "bb"));
    Ok(())
}

#[test]
fn members_are_taken_and_removed(rt: HostRuntime) -> Result<(), Fail> {
    let mut members = some_members(rt.alloc())?;
    assert!(rt; matches!(members.take("bb"), Some(Tree::OneOne)) && members.take("e").is_none());
    assert!(rt; matches!(members.remove("d"), Some(Tree::Whole(6))));
    assert!(rt; members.remove("d").is_none());
    let text = text_of(rt.alloc(), &Tree::Map(members))?;
    assert!(rt; text.as_slice() == br#"{"a":"3","b":"4","bb":null,"c":"5"}"#.as_slice());
    Ok(())
}

// The members that these pairs make.
fn built(alloc: Global, pairs: &[(&str, i64)]) -> Result<Members, AllocError> {
    let mut owned = Vec::new(alloc);
    for (key, number) in pairs {
        owned.push((Text::new(alloc, key)?, Tree::Whole(*number)))?;
    }
    Ok(Members::from_pairs(owned)?)
}

#[test]
fn pairs_in_any_order_make_members(rt: HostRuntime) -> Result<(), Fail> {
    for case in &[
        (
            [("", 1), ("a", 2), ("b", 3), ("c", 4)].as_slice(),
            r#"{"":1,"a":2,"b":3,"c":4}"#,
        ),
        (
            [("c", 1), ("b", 2), ("a", 3)].as_slice(),
            r#"{"a":3,"b":2,"c":1}"#,
        ),
        (
            [("b", 1), ("a", 2), ("b", 3), ("a", 4)].as_slice(),
            r#"{"a":4,"b":3}"#,
        ),
        ([("a", 1), ("a", 2), ("a", 3)].as_slice(), r#"{"a":3}"#),
        ([].as_slice(), "{}"),
    ] {
        let (pairs, want) = *case;
        let text = text_of(rt.alloc(), &Tree::Map(built(rt.alloc(), pairs)?))?;
        assert!(rt; text.as_slice() == want.as_bytes(), "{want}");
    }
    Ok(())
}

// The keys of some members, and the numbers at them, one after another.
fn walked(alloc: Global, members: &Members) -> Result<String, AllocError> {
    let mut out = String::new(alloc);
    for (key, value) in members {
        out.push_str(key.as_str())?;
        if let Tree::Whole(number) = value {
            let text = format!(in alloc; "{number}")?;
            out.push_str(text.as_str())?;
        }
    }
    Ok(out)
}

fn walked_by_value(alloc: Global, members: Members) -> Result<String, AllocError> {
    let mut out = String::new(alloc);
    for (key, _value) in members {
        out.push_str(key.as_str())?;
    }
    Ok(out)
}

#[test]
fn walks_give_members_in_the_order_of_their_keys(rt: HostRuntime) -> Result<(), Fail> {
    let members = built(rt.alloc(), &[("c", 1), ("a", 2), ("b", 3)])?;
    assert!(rt; walked(rt.alloc(), &members)?.as_str() == "a2b3c1");
    assert!(rt;
        matches!(members.iter().peek(), Some((key, Tree::Whole(2))) if key.as_str() == "a")
    );
    assert!(rt; walked_by_value(rt.alloc(), members)?.as_str() == "abc");
    assert!(rt; Members::new(rt.alloc()).is_empty());
    Ok(())
}

fn two_trees(alloc: Global) -> Result<Trees, AllocError> {
    let mut trees = Trees::new(alloc);
    trees.push(Tree::Null)?;
    trees.push(Tree::Truth(true))?;
    Ok(trees)
}

#[test]
fn values_stay_in_order(rt: HostRuntime) -> Result<(), Fail> {
    let trees = two_trees(rt.alloc())?;
    assert!(rt; Trees::new(rt.alloc()).is_empty() && !trees.is_empty() && trees.len() == 2);
    assert!(rt; matches!(trees.get(1), Some(Tree::Truth(true))) && trees.get(2).is_none());
    assert!(rt; matches!(trees.iter().nth(1), Some(Tree::Truth(true))));
    let mut count = 0u8;
    for tree in trees {
        assert!(rt; matches!(tree, Tree::Null | Tree::Truth(true)));
        count = count.saturating_add(1);
    }
    assert!(rt; count == 2);
    Ok(())
}

#[test]
fn a_vector_of_values_makes_a_list(rt: HostRuntime) -> Result<(), Fail> {
    let trees = Trees::from_vec(vec![in rt.alloc(); Tree::Null, Tree::OneOne]?);
    assert!(rt; matches!(trees.get(0), Some(Tree::Null)) && trees.len() == 2);
    let text = text_of(rt.alloc(), &Tree::Items(trees))?;
    assert!(rt; text.as_slice() == b"[null,1.1]".as_slice());
    Ok(())
}

#[test]
fn members_are_appended(rt: HostRuntime) -> Result<(), Fail> {
    let mut members = Members::new(rt.alloc());
    members.append(Text::new(rt.alloc(), "a")?, Tree::Null)?;
    assert!(rt; members.len() == 1 && matches!(members.get("a"), Some(Tree::Null)));
    Ok(())
}

#[test]
fn places_keep_what_is_pushed(rt: HostRuntime) -> Result<(), Fail> {
    let mut place = Place::new(rt.alloc());
    place.push(Step::Key(Text::new(rt.alloc(), "a")?))?;
    place.push(Step::Item(7))?;
    assert!(rt; place.len() == 2 && place.get(2).is_none());
    assert!(rt; matches!(place.get(0), Some(Step::Key(key)) if key.as_str() == "a"));
    assert!(rt; matches!(place.as_slice(), [_, Step::Item(7)]));
    Ok(())
}
