//! The error codes of JSON-LD 1.1.
ghost use Rattle.std.specs.Prelude.{◌≡◌, ◌<◌, ℕ, IfSome, Some, IsTrue};
ghost use Rattle.std.specs.List.{slice_get};
ghost use Rattle.case_tables.specs.Rows.{numbered};
ghost use Rattle.case_tables.specs.Code.{code_name};

use crate::{Row, Table};

/// An error code (JSON-LD 1.1 API, section 9.6).
#[derive(Clone, Copy, Debug, PartialEq, Eq)]
pub enum Code {
    /// `colliding keywords`
    CollidingKeywords,
    /// `conflicting indexes`
    ConflictingIndexes,
    /// `context overflow`
    ContextOverflow,
    /// `cyclic IRI mapping`
    CyclicIriMapping,
    /// `invalid @id value`
    InvalidIdValue,
    /// `invalid @import value`
    InvalidImportValue,
    /// `invalid @included value`
    InvalidIncludedValue,
    /// `invalid @index value`
    InvalidIndexValue,
    /// `invalid @nest value`
    InvalidNestValue,
    /// `invalid @prefix value`
    InvalidPrefixValue,
    /// `invalid @propagate value`
    InvalidPropagateValue,
    /// `invalid @protected value`
    InvalidProtectedValue,
    /// `invalid @reverse value`
    InvalidReverseValue,
    /// `invalid @version value`
    InvalidVersionValue,
    /// `invalid base direction`
    InvalidBaseDirection,
    /// `invalid base IRI`
    InvalidBaseIri,
    /// `invalid container mapping`
    InvalidContainerMapping,
    /// `invalid context entry`
    InvalidContextEntry,
    /// `invalid context nullification`
    InvalidContextNullification,
    /// `invalid default language`
    InvalidDefaultLanguage,
    /// `invalid IRI mapping`
    InvalidIriMapping,
    /// `invalid JSON literal`
    InvalidJsonLiteral,
    /// `invalid keyword alias`
    InvalidKeywordAlias,
    /// `invalid language map value`
    InvalidLanguageMapValue,
    /// `invalid language mapping`
    InvalidLanguageMapping,
    /// `invalid language-tagged string`
    InvalidLanguageTaggedString,
    /// `invalid language-tagged value`
    InvalidLanguageTaggedValue,
    /// `invalid local context`
    InvalidLocalContext,
    /// `invalid remote context`
    InvalidRemoteContext,
    /// `invalid reverse property`
    InvalidReverseProperty,
    /// `invalid reverse property map`
    InvalidReversePropertyMap,
    /// `invalid reverse property value`
    InvalidReversePropertyValue,
    /// `invalid scoped context`
    InvalidScopedContext,
    /// `invalid set or list object`
    InvalidSetOrListObject,
    /// `invalid term definition`
    InvalidTermDefinition,
    /// `invalid type mapping`
    InvalidTypeMapping,
    /// `invalid type value`
    InvalidTypeValue,
    /// `invalid typed value`
    InvalidTypedValue,
    /// `invalid value object`
    InvalidValueObject,
    /// `invalid value object value`
    InvalidValueObjectValue,
    /// `invalid vocab mapping`
    InvalidVocabMapping,
    /// `keyword redefinition`
    KeywordRedefinition,
    /// `loading remote context failed`
    LoadingRemoteContextFailed,
    /// `protected term redefinition`
    ProtectedTermRedefinition,
}

// Each variant with its name, handed to the macro that is named.
macro_rules! codes {
    ($then:ident $($value:ident)?) => {
        $then! {
            Code $($value)?;
            CollidingKeywords = "colliding keywords",
            ConflictingIndexes = "conflicting indexes",
            ContextOverflow = "context overflow",
            CyclicIriMapping = "cyclic IRI mapping",
            InvalidIdValue = "invalid @id value",
            InvalidImportValue = "invalid @import value",
            InvalidIncludedValue = "invalid @included value",
            InvalidIndexValue = "invalid @index value",
            InvalidNestValue = "invalid @nest value",
            InvalidPrefixValue = "invalid @prefix value",
            InvalidPropagateValue = "invalid @propagate value",
            InvalidProtectedValue = "invalid @protected value",
            InvalidReverseValue = "invalid @reverse value",
            InvalidVersionValue = "invalid @version value",
            InvalidBaseDirection = "invalid base direction",
            InvalidBaseIri = "invalid base IRI",
            InvalidContainerMapping = "invalid container mapping",
            InvalidContextEntry = "invalid context entry",
            InvalidContextNullification = "invalid context nullification",
            InvalidDefaultLanguage = "invalid default language",
            InvalidIriMapping = "invalid IRI mapping",
            InvalidJsonLiteral = "invalid JSON literal",
            InvalidKeywordAlias = "invalid keyword alias",
            InvalidLanguageMapValue = "invalid language map value",
            InvalidLanguageMapping = "invalid language mapping",
            InvalidLanguageTaggedString = "invalid language-tagged string",
            InvalidLanguageTaggedValue = "invalid language-tagged value",
            InvalidLocalContext = "invalid local context",
            InvalidRemoteContext = "invalid remote context",
            InvalidReverseProperty = "invalid reverse property",
            InvalidReversePropertyMap = "invalid reverse property map",
            InvalidReversePropertyValue = "invalid reverse property value",
            InvalidScopedContext = "invalid scoped context",
            InvalidSetOrListObject = "invalid set or list object",
            InvalidTermDefinition = "invalid term definition",
            InvalidTypeMapping = "invalid type mapping",
            InvalidTypeValue = "invalid type value",
            InvalidTypedValue = "invalid typed value",
            InvalidValueObject = "invalid value object",
            InvalidValueObjectValue = "invalid value object value",
            InvalidVocabMapping = "invalid vocab mapping",
            KeywordRedefinition = "keyword redefinition",
            LoadingRemoteContextFailed = "loading remote context failed",
            ProtectedTermRedefinition = "protected term redefinition",
        }
    };
}

const CODES: [Code; 44] = codes!(each);

impl Code {
    /// The code as the standard writes it.
    pub fn name(self) -> &'static str
        ensures { result.now ≡ code_name self }
    {
        codes!(name_in self)
    }
}

/// The code that the text is, or `None` where it is none. `code_of(c.name())` is `Some(c)`.
pub fn code_of(text: &str) -> Option<Code>
    ensures listed { (k : Code) → text.now ≡ code_name k → result ≡ Some k }
    ensures named { IfSome result (λ k. text.now ≡ code_name k) }
{
    if !may_be_name(text) {
        return None;
    }
    let number = code_table().find(text)?;
    code_at(number)
}

// Looks at the length and the first byte, which rule out most texts at once.
fn may_be_name(text: &str) -> bool
    ensures { (k : Code) → text.now ≡ code_name k → IsTrue result }
{
    let bytes = text.as_bytes();
    bytes.len() >= 16
        && bytes.len() <= 30
        && matches!(bytes.first(), Some(b'c' | b'i' | b'k' | b'l' | b'p'))
}

fn code_table() -> Table<44>
    ensures { result ≡ numbered code_name 0 CODES }
{
    codes!(rows)
}

fn code_at(number: u16) -> Option<Code>
    ensures { result ≡ slice_get CODES number }
{
    CODES.get(usize::from(number)).copied()
}
