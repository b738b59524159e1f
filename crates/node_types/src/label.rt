// The text of a label.
ghost use Rattle.std.specs.Prelude.{◌≡◌, IfOk};
ghost use Rattle.ld_model.specs.Label.{label_of};

use ld_tree::Text;
use std::alloc::{AllocError, Global};

/// The label with this number, `_:b0` for the first one (JSON-LD 1.1 API, section 7.4). Fails only where memory is refused.
pub fn label_text(alloc: Global, number: u64) -> Result<Text, AllocError>
    ensures { IfOk result (λ t. t ≡ label_of number) }
{
    let text = format!(in alloc; "_:b{number}")?;
    Ok(Text::from_string(text)?)
}
