// Language tags.
ghost use Rattle.std.specs.Prelude.{◌≡◌};
ghost use Rattle.std.specs.List.{list_all};
ghost use Rattle.std.specs.Char.{is_ascii_alphabetic, is_ascii_alphanumeric};
ghost use Rattle.rdf_terms.specs.Language.{is_tag, is_letters, is_letters_or_digits};

/// Whether a text is a language tag by the grammar of RDF 1.1 N-Quads (LANGTAG, without its `@`): letters,
/// and then any number of parts of letters and digits, each behind a hyphen. It takes no memory.
pub fn is_language_tag(text: &str) -> bool
    ensures { result ≡ is_tag text.now }
{
    match text.split_once('-') {
        Some((first, rest)) => is_letters(first)
            && rest.split('-').all(|part| is_letters_or_digits(part)),
        None => is_letters(text),
    }
}

fn is_letters(text: &str) -> bool
    ensures { result ≡ is_letters text.now }
{
    !text.is_empty() && has_letters_alone(text)
}

fn has_letters_alone(text: &str) -> bool
    ensures { result ≡ list_all is_ascii_alphabetic text.now }
{
    text.bytes().all(|byte| byte.is_ascii_alphabetic())
}

fn is_letters_or_digits(text: &str) -> bool
    ensures { result ≡ is_letters_or_digits text.now }
{
    !text.is_empty() && has_letters_and_digits_alone(text)
}

fn has_letters_and_digits_alone(text: &str) -> bool
    ensures { result ≡ list_all is_ascii_alphanumeric text.now }
{
    text.bytes().all(|byte| byte.is_ascii_alphanumeric())
}
