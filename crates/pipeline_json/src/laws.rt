//! Laws of the trees of texts.

ghost use Rattle.pipeline_json.specs.Judged.{AllAreRead, FirstFaultDecides, EachIsJudged, PilesAreTaken};

/// Each element of a list is judged against the stages before it: where none has a fault the outcome is their stages, if each
/// but the last is taken, and else it is the fault of the first one that has one.
pub fn stages_are_judged()
    ensures all { AllAreRead }
    ensures first { FirstFaultDecides }
    ensures each { EachIsJudged }
{}

/// A stage without inputs that is no reader takes the stages before it that none before it takes, in their order.
pub fn piles_are_taken()
    ensures { PilesAreTaken }
{}
