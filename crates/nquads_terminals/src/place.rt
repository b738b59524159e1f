// Places in bytes.
ghost use Rattle.std.specs.Prelude.{◌≡◌, ◌≤◌, ◌<◌, ◌+◌, length, drop, None, Some, MatchOption};
ghost use Rattle.nquads_terminals.specs.Terminals.{behind};

/// The bytes from a place on.
#[inline(always)]
pub(crate) fn from(bytes: &[u8], at: usize) -> &[u8]
    requires { at ≤ length bytes.now }
    ensures { result.now ≡ drop at bytes.now }
{
    &bytes[at..]
}

/// The bytes from a place on, and none where it is past their end.
#[inline(always)]
pub(crate) fn from_any(bytes: &[u8], at: usize) -> &[u8]
    ensures { result.now ≡ drop at bytes.now }
{
    if at >= bytes.len() {
        return &[];
    }
    from(bytes, at)
}

/// What follows the mark, where it stands at the place.
#[inline(always)]
pub(crate) fn behind(bytes: &[u8], at: usize, mark: u8) -> Option<&[u8]>
    ensures { MatchOption result (behind mark (drop at bytes.now) ≡ None)
        (λ rest. (at < length bytes.now) × (rest.now ≡ drop (at + 1) bytes.now) × (behind mark (drop at bytes.now) ≡ Some rest.now)) }
{
    if at >= bytes.len() || bytes[at] != mark {
        return None;
    }
    Some(from(bytes, at + 1))
}
