// Laws of reading, each on the contract of a function that does nothing.
ghost use Rattle.ld_json.specs.NumberLaws.{WordsAreTheTokens, StandAtTheirPlaces, PlacesAscend, NamedIsFirst};

/// The byte that `ReadRefusal::Number` names begins the first number token that isn't accepted.
///
/// The words that are looked at are the number tokens that the grammar of JSON finds in a text that reads (RFC 8259,
/// sections 2 and 6), in order. The text has each at its place, and the places ascend. The place that is named is that of
/// one that isn't accepted, and each in front of it is.
pub fn named_byte_begins_the_first_refused_number()
    ensures tokens { WordsAreTheTokens }
    ensures places { StandAtTheirPlaces }
    ensures ascending { PlacesAscend }
    ensures first { NamedIsFirst }
{}
