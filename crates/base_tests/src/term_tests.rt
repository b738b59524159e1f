use rdf_terms::*;
use std::test::Fail;

#[test]
fn a_whole_number_is_written_as_a_double(rt: HostRuntime) -> Result<(), Fail> {
    for (value, want) in &[
        (100, "1.0E2"),
        (0, "0.0E0"),
        (-12, "-1.2E1"),
        (9_007_199_254_740_992, "9.007199254740992E15"),
        (1, "1.0E0"),
        (10_203_000, "1.0203E7"),
        (i64::MIN, "-9.223372036854775808E18"),
    ] {
        let got = double_text(rt.alloc(), *value)?;
        assert_eq!(rt; got.as_str(), *want, "{value}");
    }
    Ok(())
}

#[test]
fn a_language_tag_is_letters_and_parts_behind_hyphens(rt: HostRuntime) {
    for (text, want) in &[
        ("en-US", true),
        ("en_US", false),
        ("", false),
        ("de", true),
        ("zh-Hant-1996", true),
        ("en-", false),
        ("-en", false),
        ("en--US", false),
        ("e1", false),
        ("1n", false),
        ("@en", false),
    ] {
        assert_eq!(rt; is_language_tag(text), *want, "{text}");
    }
}
