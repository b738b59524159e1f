// Trees: their weight, their text, and when they are equal.
use ld_json::{Tree, read_tree, text_of, weight};
use std::test::Fail;

#[test]
fn the_weight_is_the_number_of_values(rt: HostRuntime) -> Result<(), Fail> {
    for case in &[
        ("null", 1),
        ("[]", 1),
        (r#"["a",[],0]"#, 4),
        (r#"{"a":{"b":true,"c":[null]},"d":{}}"#, 6),
    ] {
        let (text, want) = *case;
        assert!(rt;
            weight(&read_tree(rt.alloc(), text.as_bytes())?) == want,
            "{text}"
        );
    }
    Ok(())
}

#[test]
fn numbers_are_written_in_decimal(rt: HostRuntime) -> Result<(), Fail> {
    for case in &[(0, "0"), (-9_007_199_254_740_992, "-9007199254740992")] {
        let (number, want) = *case;
        let text = text_of(rt.alloc(), &Tree::Whole(number))?;
        assert!(rt; text.as_slice() == want.as_bytes());
    }
    assert!(rt; text_of(rt.alloc(), &Tree::OneOne)?.as_slice() == b"1.1".as_slice());
    Ok(())
}

#[test]
fn trees_are_equal_where_all_in_them_is(rt: HostRuntime) -> Result<(), Fail> {
    for case in &[
        ("null", "null", "null", true),
        ("truth values", "true", "false", false),
        ("kinds", "null", "false", false),
        ("empty kinds", "[]", "{}", false),
        ("equal texts", r#""a""#, r#""a""#, true),
        ("texts", r#""a""#, r#""b""#, false),
        ("lengths of arrays", "[]", "[null]", false),
        ("values", "[[]]", "[null]", false),
        ("equal arrays", "[null,[]]", "[null,[]]", true),
        ("numbers of members", "{}", r#"{"a":[]}"#, false),
        ("keys", r#"{"a":[]}"#, r#"{"b":[]}"#, false),
        ("values of a key", r#"{"a":[]}"#, r#"{"a":{}}"#, false),
        (
            "members in two orders",
            r#"{"a":[],"b":{}}"#,
            r#"{"b":{},"a":[]}"#,
            true,
        ),
        ("equal numbers", "1", "1", true),
        ("numbers", "1", "-1", false),
        (
            "equal version numbers",
            r#"{"@version":1.1}"#,
            r#"{"@version":1.1}"#,
            true,
        ),
    ] {
        let (name, a, b, same) = *case;
        let copy = read_tree(rt.alloc(), a.as_bytes())?.copy(rt.alloc())?;
        let other = read_tree(rt.alloc(), b.as_bytes())?;
        assert!(rt; copy.same(&other) == same, "{name}");
    }
    Ok(())
}
