//! The law that planning where a document is cut may stop as soon as there are more pieces than a plan has.
//!
//! There is no code here. The function does nothing, and its contract is the law, which `specs/Laws.antt` states.
#![tactic(auto)]

ghost use Rattle.stop_laws.specs.Laws.{StoppingFindsTheSamePlan};

/// Planning that stops once there are more than 4,096 pieces comes to the plan that planning comes to, where that has no more; and else both have
/// more. So the limit that is doubled until there are few enough is the same.
pub fn stopping_finds_the_same_plan()
    ensures { StoppingFindsTheSamePlan }
{}
