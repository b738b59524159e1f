use iri_ref::*;
use std::alloc::Global;
use std::process::Abort;
use std::test::Fail;

#[test]
fn the_parts_of_the_example_of_rfc_3986(rt: HostRuntime) {
    let parts = split("http://www.ics.uci.edu/pub/ietf/uri/#Related");
    assert!(rt; parts.scheme == Some("http"));
    assert!(rt; parts.authority == Some("www.ics.uci.edu"));
    assert!(rt; parts.path == "/pub/ietf/uri/" && parts.query.is_none());
    assert!(rt; parts.fragment == Some("Related"));
}

#[test]
fn the_form_of_an_iri(rt: HostRuntime) {
    for (text, scheme, well_formed) in &[
        ("http://e/a", true, true),
        ("urn+1.0-b:x", true, true),
        ("http://e/a b", true, false),
        ("x:{y}", true, false),
        ("1x:y", false, false),
        ("a/b:c", false, false),
        (":a", false, false),
        ("a", false, false),
    ] {
        assert_eq!(rt; has_scheme(text), *scheme, "{text}");
        assert_eq!(rt; is_well_formed(text), *well_formed, "{text}");
    }
}

const BASE: &str = "http://a/b/c/d;p?q";

// RFC 3986, section 5.4.1: on each line a reference and, behind a space, its target.
const NORMAL: &str = "g:h g:h
g http://a/b/c/g
./g http://a/b/c/g
g/ http://a/b/c/g/
/g http://a/g
//g http://g
?y http://a/b/c/d;p?y
g?y http://a/b/c/g?y
#s http://a/b/c/d;p?q#s
g#s http://a/b/c/g#s
g?y#s http://a/b/c/g?y#s
;x http://a/b/c/;x
g;x http://a/b/c/g;x
g;x?y#s http://a/b/c/g;x?y#s
 http://a/b/c/d;p?q
. http://a/b/c/
./ http://a/b/c/
.. http://a/b/
../ http://a/b/
../g http://a/b/g
../.. http://a/
../../ http://a/
../../g http://a/g";

// Section 5.4.2, in the same form.
const ABNORMAL: &str = "../../../g http://a/g
../../../../g http://a/g
/./g http://a/g
/../g http://a/g
g. http://a/b/c/g.
.g http://a/b/c/.g
g.. http://a/b/c/g..
..g http://a/b/c/..g
./../g http://a/b/g
./g/. http://a/b/c/g/
g/./h http://a/b/c/g/h
g/../h http://a/b/c/h
g;x=1/./y http://a/b/c/g;x=1/y
g;x=1/../y http://a/b/c/y
g?y/./x http://a/b/c/g?y/./x
g?y/../x http://a/b/c/g?y/../x
g#s/./x http://a/b/c/g#s/./x
g#s/../x http://a/b/c/g#s/../x
http:g http:g";

// Resolves the reference of each row, and answers how many rows there are.
fn resolve_rows<R: Abort>(rt: &R, alloc: Global, rows: &str) -> Result<u32, Fail> {
    let mut count = 0u32;
    for row in rows.lines() {
        let (reference, target) = row.split_once(' ').unwrap_or((row, ""));
        let resolved = resolve(alloc, BASE, reference)?;
        assert_eq!(rt; resolved.as_str(), target, "{reference}");
        count = count.wrapping_add(1);
    }
    Ok(count)
}

#[test]
fn the_examples_of_rfc_3986(rt: HostRuntime) -> Result<(), Fail> {
    let normal = resolve_rows(&rt, rt.alloc(), NORMAL)?;
    let abnormal = resolve_rows(&rt, rt.alloc(), ABNORMAL)?;
    assert!(rt; normal == 23 && abnormal == 19);
    Ok(())
}

#[test]
fn other_bases_and_the_examples_of_removing_dots(rt: HostRuntime) -> Result<(), Fail> {
    for (base, reference, target) in &[
        (BASE, "x:/a/b/c/./../../g", "x:/a/g"),
        (BASE, "x:mid/content=5/../6", "x:mid/6"),
        (BASE, "g?#", "http://a/b/c/g?#"),
        ("http://a", "g", "http://a/g"),
        ("http://a/b#s", "", "http://a/b"),
    ] {
        let resolved = resolve(rt.alloc(), base, reference)?;
        assert_eq!(rt; resolved.as_str(), *target, "{reference}");
    }
    Ok(())
}
