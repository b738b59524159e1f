// The lexical form of a number as a double.
ghost use Rattle.std.specs.Prelude.{◌≡◌, IfOk};
ghost use Rattle.std.specs.Fmt.{sign_text};
ghost use Rattle.std.specs.Int.{is_negative};
ghost use Rattle.rdf_terms.specs.Double.{double_form, fraction, without_trailing_zeros};

use ld_text::Text;
use std::alloc::{AllocError, Global};

/// The canonical form of a whole number as an `xsd:double` (JSON-LD 1.1 API, section 8.6, data round tripping): a
/// digit, a point, the further digits without trailing zeros but at least one, `E`, and the exponent. 100 is `1.0E2`,
/// 0 is `0.0E0` and -12 is `-1.2E1`. No digit is rounded away. Fails only where memory is refused.
pub fn double_text(alloc: Global, value: i64) -> Result<Text, AllocError>
    ensures { IfOk result (λ t. t ≡ double_form value) }
{
    let mut buffer = itoa::Buffer::new();
    let digits = buffer.format(value.unsigned_abs());
    let (first, rest) = digits.split_at(1);
    let sign = sign_of(value);
    let fraction = fraction_of(rest);
    let exponent = rest.len();
    let text = format!(in alloc; "{sign}{first}.{fraction}E{exponent}")?;
    Ok(Text::from_string(text)?)
}

fn sign_of(value: i64) -> &'static str
    ensures { result.now ≡ sign_text (is_negative value) }
{
    if value < 0 { "-" } else { "" }
}

/// The digits behind the point: `digits` without trailing zeros, but at least one digit.
fn fraction_of(digits: &str) -> &str
    ensures { result.now ≡ fraction digits.now }
{
    let kept = trimmed(digits);
    if kept.is_empty() { "0" } else { kept }
}

fn trimmed(digits: &str) -> &str
    ensures { result.now ≡ without_trailing_zeros digits.now }
{
    digits.trim_end_matches('0')
}
