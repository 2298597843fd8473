//! Laws of checks. They follow from the definitions.
ghost use Rattle.ipmi_check.specs.Laws.{FailureIsNotOk, OkIsTrue};

/// Over an honest controller, a check that says OK has asked each sensor, and none is in trouble.
pub fn ok_is_true()
    ensures { OkIsTrue }
{}

/// Over any controller, a check whose search failed is critical or unknown.
#[tactic(auto, using(crate::proofs::OkLemmas::failure_is_not_ok))]
pub fn failure_is_not_ok()
    ensures { FailureIsNotOk }
{}
