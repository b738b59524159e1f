// What texts read as, by either way of reading.
ghost use Rattle.std.specs.Prelude.{◌<◌};

use crate::corpus::{CORPUS, COUNT};
use ld_json::{Members, ReadRefusal, Text, Tree, read_tree, text_of};
use std::alloc::{AllocError, Global};
use std::test::Fail;

/// So many bytes of white space behind a text make it one that is read by its tokens.
const PADDING: usize = 300;

// Texts that a line of the corpus can't hold.
const BYTES: [(&[u8], &str); 9] = [
    (b"", "syntax"),
    (b" [ true ,\r\n\tnull ] ", "[true,null]"),
    (
        br#""\u0000\u001F\u007f\u00e9""#,
        "\"\\u0000\\u001f\x7f\u{e9}\"",
    ),
    (br#""\ud834\udd1e""#, "\"\u{1d11e}\""),
    (b"\"\xff\"", "syntax"),
    (b"[\"\xc3\"]", "syntax"),
    (b"\"\x07\"", "syntax"),
    (b"\"a\nb\"", "syntax"),
    (b"\xef\xbb\xbf[]", "syntax"),
];

// What was read, written back; or the refusal in words.
fn answer(alloc: Global, read: Result<Tree, ReadRefusal>) -> Result<String, AllocError> {
    match read {
        Ok(tree) => match String::from_utf8(text_of(alloc, &tree)?) {
            Ok(text) => Ok(text),
            Err(_) => String::from_str(alloc, "no UTF-8"),
        },
        Err(ReadRefusal::OutOfMemory) => Err(AllocError),
        Err(refusal) => format!(in alloc; "{refusal}"),
    }
}

fn rewritten(alloc: Global, bytes: &[u8]) -> Result<String, AllocError> {
    answer(alloc, read_tree(alloc, bytes))
}

// The same, of the text with white space behind it.
fn rewritten_by_tokens(alloc: Global, bytes: &[u8]) -> Result<String, AllocError> {
    let mut padded = Vec::from_slice(alloc, bytes)?;
    padded.resize(bytes.len() + PADDING, b' ')?;
    rewritten(alloc, &padded)
}

#[test]
fn each_text_of_the_corpus_reads_the_same_by_both_ways(rt: HostRuntime) -> Result<(), Fail> {
    let mut count = 0usize;
    for line in CORPUS.lines() {
        let Some((text, want)) = line.split_once(" => ") else {
            assert!(rt; false, "{line}");
            return Ok(());
        };
        let bytes = text.as_bytes();
        assert!(rt; rewritten(rt.alloc(), bytes)?.as_str() == want, "{line}");
        assert!(rt;
            rewritten_by_tokens(rt.alloc(), bytes)?.as_str() == want,
            "{line}"
        );
        count = count.saturating_add(1);
    }
    assert!(rt; count == COUNT);
    Ok(())
}

#[test]
fn texts_of_any_bytes_read_the_same_by_both_ways(rt: HostRuntime) -> Result<(), Fail> {
    for case in &BYTES {
        let (bytes, want) = *case;
        assert!(rt; rewritten(rt.alloc(), bytes)?.as_str() == want, "{want}");
        assert!(rt;
            rewritten_by_tokens(rt.alloc(), bytes)?.as_str() == want,
            "{want}"
        );
    }
    Ok(())
}

// Arrays in arrays, or objects in objects, this many deep.
fn nested(alloc: Global, open: &[u8], close: &[u8], depth: usize) -> Result<Vec<u8>, AllocError> {
    let mut text = Vec::new(alloc);
    for _ in 0..depth {
        text.extend_from_slice(open)?;
    }
    text.extend_from_slice(b"{}")?;
    for _ in 0..depth {
        text.extend_from_slice(close)?;
    }
    Ok(text)
}

#[test]
fn a_text_may_be_127_deep(rt: HostRuntime) -> Result<(), Fail> {
    let alloc = rt.alloc();
    for case in &[
        (b"[".as_slice(), b"]".as_slice()),
        (br#"{"":"#.as_slice(), b"}".as_slice()),
    ] {
        let (open, close) = *case;
        let deep = nested(alloc, open, close, 126)?;
        assert!(rt; rewritten(alloc, &deep)?.as_bytes() == deep.as_slice());
        assert!(rt; rewritten_by_tokens(alloc, &deep)?.as_bytes() == deep.as_slice());
        let deeper = nested(alloc, open, close, 127)?;
        assert!(rt; rewritten(alloc, &deeper)?.as_str() == "syntax");
        assert!(rt; rewritten_by_tokens(alloc, &deeper)?.as_str() == "syntax");
    }
    Ok(())
}

// Member i of the object below has a key of three digits, 100 + 7 i modulo 100, and the value i.
fn key_of(alloc: Global, i: u64) -> Result<String, AllocError>
    requires { i < 300 }
{
    format!(in alloc; "{}", 100 + 7 * i % 100)
}

// The text of an object of 300 members over 100 keys, in no order.
fn repeating(alloc: Global) -> Result<String, AllocError> {
    let mut text = String::from_str(alloc, r#"{"":null"#)?;
    for i in 0..300u64 {
        let key = key_of(alloc, i)?;
        let member = format!(in alloc; ",\"{}\":{i}", key.as_str())?;
        text.push_str(member.as_str())?;
    }
    text.push_str("}")?;
    Ok(text)
}

fn set_one_by_one(alloc: Global) -> Result<Members, AllocError> {
    let mut members = Members::new(alloc);
    members.put(alloc, "", Tree::Null)?;
    for i in 0..300u64 {
        members.set(Text::from_string(key_of(alloc, i)?)?, Tree::Whole(i as i64))?;
    }
    Ok(members)
}

#[test]
fn of_many_equal_keys_the_last_stays(rt: HostRuntime) -> Result<(), Fail> {
    let text = repeating(rt.alloc())?;
    let want = text_of(rt.alloc(), &Tree::Map(set_one_by_one(rt.alloc())?))?;
    assert!(rt; rewritten(rt.alloc(), text.as_bytes())?.as_bytes() == want.as_slice());
    assert!(rt; want.len() < text.len() / 2);
    Ok(())
}
