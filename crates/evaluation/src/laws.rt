//! A law of the definitions that the contracts cite. The function does nothing: its contract is the law.
ghost use Rattle.evaluation.specs.Laws.{RoundsLeaveNoneOut};

/// The fields that are asked are those that are to be evaluated, each as often, in whatever order.
#[tactic(auto, using(crate::proofs::InRounds::order_permutes))]
pub fn rounds_leave_none_out()
    ensures { RoundsLeaveNoneOut }
{}
