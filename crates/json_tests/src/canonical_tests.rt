// The canonical text, and the order of its names.
use json_canon::{canonical, less_utf16};
use ld_json::{Members, Text, Tree, Trees, read_tree};
use std::alloc::{AllocError, Global};
use std::test::Fail;

#[test]
fn texts_are_ordered_by_their_code_units(rt: HostRuntime) {
    for case in &[
        (
            "a surrogate pair before U+FF01",
            "\u{10000}",
            "\u{ff01}",
            true,
        ),
        ("and not behind it", "\u{ff01}", "\u{10000}", false),
        ("a letter before the next", "a", "b", true),
        ("a capital before a small letter", "Z", "a", true),
        ("a text before a longer one", "a", "aa", true),
        ("the empty text before any", "", "\u{0}", true),
        ("no text before itself", "\u{1f600}", "\u{1f600}", false),
        (
            "the second unit of a pair counts",
            "\u{1f600}",
            "\u{1f601}",
            true,
        ),
    ] {
        let (name, first, second, want) = *case;
        assert!(rt; less_utf16(first, second) == want, "{name}");
    }
}

#[test]
fn texts_of_the_standard_have_their_canonical_form(rt: HostRuntime) -> Result<(), Fail> {
    for case in &[
        (
            "the sorting example of RFC 8785, section 3.2.3",
            "{\"\\u20ac\":\"Euro Sign\", \"\\r\":\"Carriage Return\",
            \"\\ufb33\":\"Hebrew Letter Dalet With Dagesh\", \"1\":\"One\",
            \"\\ud83d\\ude00\":\"Emoji: Grinning Face\", \"\\u0080\":\"Control\",
            \"\\u00f6\":\"Latin Small Letter O With Diaeresis\"}",
            "{\"\\r\":\"Carriage Return\",\"1\":\"One\",\"\u{80}\":\"Control\",\
            \"\u{f6}\":\"Latin Small Letter O With Diaeresis\",\"\u{20ac}\":\"Euro Sign\",\
            \"\u{1f600}\":\"Emoji: Grinning Face\",\
            \"\u{fb33}\":\"Hebrew Letter Dalet With Dagesh\"}",
        ),
        (
            "the string and the literals of section 3.2.2",
            "{\"string\": \"\\u20ac$\\u000F\\u000aA'\\u0042\\u0022\\u005c\\\\\\\"\\/\",
            \"literals\": [null, true, false]}",
            "{\"literals\":[null,true,false],\"string\":\"\u{20ac}$\\u000f\\nA'B\\\"\\\\\\\\\\\"/\"}",
        ),
        (
            "each short escape, and U+001F",
            "\"\\u0008\\u0009\\u000A\\u000C\\u000D\\u001F\\u007F\"",
            "\"\\b\\t\\n\\f\\r\\u001f\u{7f}\"",
        ),
        (
            "objects inside arrays are sorted too",
            "[{\"b\":{}, \"a\":[]}]",
            "[{\"a\":[],\"b\":{}}]",
        ),
    ] {
        let (name, text, want) = *case;
        let tree = read_tree(rt.alloc(), text.as_bytes())?;
        let got = canonical(rt.alloc(), &tree)?;
        assert!(rt; got.as_slice() == want.as_bytes(), "{name}");
    }
    Ok(())
}

#[test]
fn numbers_are_plain_decimal(rt: HostRuntime) -> Result<(), Fail> {
    let tree = tree_with_numbers(rt.alloc())?;
    let got = canonical(rt.alloc(), &tree)?;
    let want = b"{\"a\":\"\\u0007\\\"\",\"b\":1,\"c\":[0,-12,9007199254740992,1.1]}";
    assert!(rt; got.as_slice() == want.as_slice());
    Ok(())
}

fn tree_with_numbers(alloc: Global) -> Result<Tree, AllocError> {
    let mut numbers = Trees::new(alloc);
    for number in &[0, -12, 9_007_199_254_740_992] {
        numbers.push(Tree::Whole(*number))?;
    }
    numbers.push(Tree::OneOne)?;
    let mut members = Members::new(alloc);
    members.put(alloc, "c", Tree::Items(numbers))?;
    members.put(alloc, "b", Tree::Whole(1))?;
    members.put(alloc, "a", Tree::Str(Text::new(alloc, "\u{7}\"")?))?;
    Ok(Tree::Map(members))
}
