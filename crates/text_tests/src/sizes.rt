// Texts of each kind: in the text itself, in one block, in a shared string.
use ld_text::Text;
use std::alloc::{AllocError, Global};
use std::collections::{BTreeMap, HashMap};
use std::test::Fail;
use std::thread;

const LENGTHS: [usize; 10] = [0, 1, 21, 22, 23, 62, 63, 64, 65, 1000];

// So many bytes of letters, and then the end.
fn letters(alloc: Global, length: usize, end: &str) -> Result<String, AllocError> {
    let mut string = String::with_capacity(alloc, length)?;
    for number in 0..length {
        string.push(if number % 3 == 0 { 'x' } else { 'y' })?;
    }
    string.push_str(end)?;
    Ok(string)
}

#[test]
fn a_text_of_each_length_is_its_string(rt: HostRuntime) -> Result<(), Fail> {
    for length in &LENGTHS {
        let string = letters(rt.alloc(), *length, "")?;
        let text = Text::new(rt.alloc(), string.as_str())?;
        assert!(rt; text.as_str() == string.as_str(), "{length}");
        let moved = Text::from_string(string)?;
        assert!(rt;
            moved == text && moved.as_str().len() == *length,
            "{length}"
        );
    }
    Ok(())
}

#[test]
fn a_copy_is_equal_and_outlives_its_text(rt: HostRuntime) -> Result<(), Fail> {
    for length in &LENGTHS {
        let string = letters(rt.alloc(), *length, "")?;
        let text = Text::new(rt.alloc(), string.as_str())?;
        let copy = text.copy()?;
        let clone = copy.clone()?;
        assert!(rt; copy == text, "{length}");
        drop(text);
        drop(copy);
        assert!(rt; clone.as_str() == string.as_str(), "{length}");
    }
    Ok(())
}

// Characters of two, three and four bytes that end before, at and behind the most bytes of a kind.
#[test]
fn characters_of_many_bytes_stay_whole(rt: HostRuntime) -> Result<(), Fail> {
    for end in &["é", "€", "\u{1d11e}"] {
        for length in &[18, 19, 20, 21, 22, 59, 60, 61, 62, 63usize] {
            let string = letters(rt.alloc(), *length, end)?;
            let text = Text::new(rt.alloc(), string.as_str())?.copy()?;
            assert!(rt; text.as_str() == string.as_str(), "{length} {end}");
            assert!(rt; text.as_str().ends_with(*end), "{length} {end}");
        }
    }
    Ok(())
}

#[test]
fn texts_are_keys_of_maps(rt: HostRuntime) -> Result<(), Fail> {
    let mut sorted: BTreeMap<Text, usize> = BTreeMap::new(rt.alloc());
    let mut hashed: HashMap<Text, usize> = HashMap::new(rt.alloc());
    for length in &LENGTHS {
        let key = Text::from_string(letters(rt.alloc(), *length, "")?)?;
        sorted.insert(key.copy()?, *length)?;
        hashed.insert(key, *length)?;
    }
    for length in &LENGTHS {
        let string = letters(rt.alloc(), *length, "")?;
        let key = Text::new(rt.alloc(), string.as_str())?;
        assert!(rt; sorted.get(&key) == Some(length), "{length}");
        assert!(rt; hashed.get(&key) == Some(length), "{length}");
    }
    assert!(rt; sorted.len() == LENGTHS.len() && hashed.len() == LENGTHS.len());
    Ok(())
}

// How many bytes a text has, told by a copy of its own.
fn length_of_copy(text: &Text) -> usize {
    match text.copy() {
        Ok(copy) => copy.as_str().len(),
        Err(_) => 0,
    }
}

#[test]
fn a_text_is_copied_by_two_threads(rt: HostRuntime) -> Result<(), Fail> {
    for length in &LENGTHS {
        let string = letters(rt.alloc(), *length, "")?;
        let text = Text::new(rt.alloc(), string.as_str())?;
        let lengths = thread::join(&rt, || length_of_copy(&text), || length_of_copy(&text));
        assert!(rt; lengths == (*length, *length), "{length}");
        assert!(rt; text.as_str() == string.as_str(), "{length}");
    }
    Ok(())
}
