//! The laws of conversion to RDF, as `rdf_model` defines it.
//!
//! There is no code here. Each function does nothing, and its contract is one law, which `specs/Laws.antt` states.
#![tactic(auto)]

ghost use Rattle.rdf_laws.specs.Laws.{LabelsAreCounted, LabelsAreNeeded, RangesAreJoined, TheWholeIsARange};

/// How many labels subjects need doesn't depend on the number from which labels are issued (JSON-LD 1.1 API, section 8.4.3).
pub fn labels_are_needed()
    ensures { LabelsAreNeeded }
{}

/// It is as many as are issued where they are converted alone.
pub fn labels_are_counted()
    ensures { LabelsAreCounted }
{}

/// A range of subjects is converted in two ranges, the second with labels from where those of the first end. So ranges that cover all subjects,
/// in order, give together what the whole gives, wherever they are cut.
pub fn ranges_are_joined()
    ensures { RangesAreJoined }
{}

/// The range of all subjects is the whole node map.
pub fn the_whole_is_a_range()
    ensures { TheWholeIsARange }
{}
