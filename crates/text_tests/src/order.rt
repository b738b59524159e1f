// How texts are ordered, and what labels are.
use ld_text::Text;
use std::cmp::Ordering;
use std::test::Fail;

// Two texts, how the first stands to the second, and whether the first is the label of a blank node.
const CASES: [(&str, &str, Ordering, bool); 11] = [
    ("", "", Ordering::Equal, false),
    ("_", "", Ordering::Greater, false),
    ("_:", "_:b0", Ordering::Less, true),
    ("_:b0", "_:b0", Ordering::Equal, true),
    ("a_:", "a", Ordering::Greater, false),
    ("é", "z", Ordering::Greater, false),
    ("\u{ffff}", "\u{10000}", Ordering::Less, false),
    (
        "http://example.org/aaa",
        "http://example.org/aaaa",
        Ordering::Less,
        false,
    ),
    (
        "http://example.org/aaab",
        "http://example.org/aaaa",
        Ordering::Greater,
        false,
    ),
    (
        "_:a-label-of-sixty-three-bytes-that-stands-whole-in-a-block-----",
        "_:a-label-of-sixty-three-bytes-that-stands-whole-in-a-block----",
        Ordering::Greater,
        true,
    ),
    (
        "http://example.org/a-path-of-more-than-sixty-three-bytes-in-a-string/z",
        "http://example.org/b",
        Ordering::Less,
        false,
    ),
];

#[test]
fn the_order_is_that_of_str(rt: HostRuntime) -> Result<(), Fail> {
    for case in &CASES {
        let (a, b, order, blank) = *case;
        let text = Text::new(rt.alloc(), a)?;
        let other = Text::new(rt.alloc(), b)?;
        assert!(rt; text.compare(b) == order && a.cmp(b) == order, "{a}");
        assert!(rt;
            text.cmp(&other) == order && other.cmp(&text) == order.reverse(),
            "{a}"
        );
        assert!(rt;
            (text == other) == (a == b) && (text < other) == (a < b),
            "{a}"
        );
        assert!(rt; text.is_blank() == blank, "{a}");
    }
    Ok(())
}

#[test]
fn a_text_is_shown_as_its_str(rt: HostRuntime) -> Result<(), Fail> {
    for text in &["", "a\"b\n", "é€\u{1d11e}"] {
        let own = Text::new(rt.alloc(), *text)?;
        let shown = format!(in rt.alloc(); "{own:?}")?;
        let as_str = format!(in rt.alloc(); "{text:?}")?;
        assert!(rt; shown.as_str() == as_str.as_str(), "{text}");
    }
    Ok(())
}
