// The order that the program's words give.
ghost use Rattle.std.specs.Prelude.{◌≡◌, ◌≤◌, ◌∷◌, List, length, None, IfOk, IfSome, MatchOption};
ghost use Rattle.ld_run.specs.Words.{words_of, command_of, plain_order, with_base, with_contexts, with_options, with_setting, with_weight, with_word, with_first, order_of, number_with, weight_of};

use iri_ref::is_well_formed;
use ld_json::Text;
use std::alloc::{AllocError, Global};

/// The weight of the pieces where the words name none.
const USUAL_WEIGHT: u64 = 2000;

/// The greatest weight that words may name.
const GREATEST_WEIGHT: u64 = 1_000_000;

/// What the program is to write.
#[derive(Clone, Copy)]
pub(crate) enum Command {
    /// The flattened document (JSON-LD 1.1 API, section 7.1).
    Flatten,
    /// The expanded document (JSON-LD 1.1 API, section 5.1).
    Expand,
}

/// A command with its options.
#[derive(Drop)]
pub(crate) struct Order {
    pub(crate) command: Command,
    /// The base URL of the document, a well-formed IRI.
    pub(crate) base: Option<Text>,
    /// Whether the document may name the contexts of the folder.
    pub(crate) contexts: bool,
    /// About how many values a piece has into which the document is cut, where the words say it: 1 to 1,000,000.
    pub(crate) weight: Option<u64>,
}

/// An option, as the words have it.
#[derive(Clone, Copy)]
pub(crate) enum Setting<'a> {
    Base(&'a str),
    Contexts,
    Weight(&'a str),
}

/// The order that the words give: a command, and its options in any order, each at most once. None where they give none.
pub(crate) fn read_words(alloc: Global, words: &[String]) -> Result<Option<Order>, AllocError>
    ensures { IfOk result (λ order. order ≡ order_of (words_of words.now)) }
{
    let Some((word, rest)) = words.split_first() else {
        return Ok(None);
    };
    match command_of(word.as_str()) {
        Some(command) => read_options(alloc, Order::of(command), rest),
        None => Ok(None),
    }
}

fn command_of(word: &str) -> Option<Command>
    ensures { result ≡ command_of word.now }
{
    match word {
        "flatten" => Some(Command::Flatten),
        "expand" => Some(Command::Expand),
        _ => None,
    }
}

/// The order with the options that the words are.
fn read_options(alloc: Global, order: Order, words: &[String]) -> Result<Option<Order>, AllocError>
    ensures { IfOk result (λ read. read ≡ with_options order (words_of words.now)) }
{
    let mut order = order;
    let mut rest = words;
    while let Some((word, behind)) = rest.split_first() {
        let Some((setting, behind)) = setting_of(word.as_str(), behind) else {
            return Ok(None);
        };
        rest = behind;
        order = match order.with(alloc, setting)? {
            Some(order) => order,
            None => return Ok(None),
        };
    }
    Ok(Some(order))
}

/// The option that a word is, alone or with the one behind it, and the words that are left.
fn setting_of<'a>(word: &'a str, behind: &'a [String]) -> Option<(Setting<'a>, &'a [String])>
    ensures gives { (o : Order) → let read = with_options o (word.now ∷ words_of behind.now)
        in MatchOption result (read ≡ None) (λ r. read ≡ with_first o r.0 (words_of r.1.now)) }
    ensures shorter { IfSome result (λ r. length r.1.now ≤ length behind.now) }
{
    if word == "--base" {
        let (value, behind) = behind.split_first()?;
        return Some((Setting::Base(value.as_str()), behind));
    }
    if word == "--weight" {
        let (value, behind) = behind.split_first()?;
        return Some((Setting::Weight(value.as_str()), behind));
    }
    let setting = lone_setting_of(word)?;
    Some((setting, behind))
}

/// The option that one word is.
fn lone_setting_of(word: &str) -> Option<Setting<'_>>
    ensures { (o : Order) → MatchOption result (with_word o word.now ≡ None) (λ s. with_word o word.now ≡ with_setting o s) }
{
    if word == "--contexts" {
        return Some(Setting::Contexts);
    }
    let (name, value) = word.split_once('=')?;
    if name == "--base" {
        return Some(Setting::Base(value));
    }
    if name == "--weight" {
        return Some(Setting::Weight(value));
    }
    None
}

/// The weight that a word is.
fn weight_of(word: &str) -> Option<u64>
    ensures { result ≡ weight_of word.now }
{
    let (first, rest) = word.as_bytes().split_first()?;
    if *first < b'1' || *first > b'9' {
        return None;
    }
    number_with((*first - b'0') as u64, rest)
}

/// The number of digits that follow one another, where it is no greater weight than words may name; `number` is that of those before.
fn number_with(number: u64, digits: &[u8]) -> Option<u64>
    ensures { result ≡ number_with number digits.now }
{
    if number > GREATEST_WEIGHT {
        return None;
    }
    let Some((digit, rest)) = digits.split_first() else {
        return Some(number);
    };
    if *digit < b'0' || *digit > b'9' {
        return None;
    }
    number_with(number * 10 + (*digit - b'0') as u64, rest)
}

impl Order {
    /// The weight of the pieces into which the document is cut.
    pub(crate) fn weight(&self) -> u64 {
        match self.weight {
            None => USUAL_WEIGHT,
            Some(weight) => weight,
        }
    }

    /// A command without options.
    fn of(command: Command) -> Order
        ensures { result ≡ plain_order command }
    {
        Order {
            command,
            base: None,
            contexts: false,
            weight: None,
        }
    }

    /// The order with one more option; None where it has that already, or the option's value isn't allowed.
    fn with(self, alloc: Global, setting: Setting<'_>) -> Result<Option<Order>, AllocError>
        ensures { IfOk result (λ order. order ≡ with_setting self setting.entry) }
    {
        match setting {
            Setting::Base(iri) => self.with_base(alloc, iri),
            Setting::Contexts => Ok(self.with_contexts()),
            Setting::Weight(word) => Ok(self.with_weight(word)),
        }
    }

    fn with_base(self, alloc: Global, iri: &str) -> Result<Option<Order>, AllocError>
        ensures { IfOk result (λ order. order ≡ with_base self iri.now) }
    {
        if self.base.is_some() || !is_well_formed(iri) {
            return Ok(None);
        }
        let base = Some(Text::new(alloc, iri)?);
        Ok(Some(Order { base, ..self }))
    }

    fn with_weight(self, word: &str) -> Option<Order>
        ensures { result ≡ with_weight self word.now }
    {
        if self.weight.is_some() {
            return None;
        }
        let weight = Some(weight_of(word)?);
        Some(Order { weight, ..self })
    }

    fn with_contexts(self) -> Option<Order>
        ensures { result ≡ with_contexts self }
    {
        if self.contexts {
            return None;
        }
        Some(Order {
            contexts: true,
            ..self
        })
    }
}
