// The order of texts by their UTF-16 code units.
ghost use Rattle.std.specs.Prelude.{◌≡◌};
ghost use Rattle.json_canon.specs.Utf16.{utf16_order, comes_before};

use std::cmp::Ordering;

/// Whether `a` comes before `b` in the order of RFC 8785, section 3.2.3: that of their UTF-16 code units, as unsigned
/// numbers. A text that another one begins with comes before it. It takes no memory.
pub fn less_utf16(a: &str, b: &str) -> bool
    ensures { result ≡ comes_before a.now b.now }
{
    compare_utf16(a, b).is_lt()
}

/// How `a` stands to `b` in the order of their UTF-16 code units.
pub(crate) fn compare_utf16(a: &str, b: &str) -> Ordering
    ensures { result ≡ utf16_order a.now b.now }
{
    a.encode_utf16().cmp(b.encode_utf16())
}
