//! What goes wrong by a reply.
ghost use Rattle.std.specs.Prelude.{◌≡◌, ◌++◌};
ghost use Rattle.std.specs.List.{list_any};
ghost use Rattle.live.specs.Wrong as wrong;

use host_events::{Outcome, Reply};
use plugin_core::Ended;

/// Whether items were lost at the end of a life.
fn has_lost(ended: &Option<Ended>) -> bool
    ensures { result ≡ wrong.has_lost ended.now }
{
    match ended {
        None => false,
        Some(ended) => ended.lost.len() != 0,
    }
}

/// Whether a reply is one by which a line goes wrong: a refusal, or the end of a life by which items were lost.
pub fn is_wrong(reply: &Reply) -> bool
    ensures { result ≡ wrong.is_wrong reply.now }
{
    match reply {
        Reply::Refused(_) => true,
        Reply::Child(reported) => has_lost(&reported.ended),
        Reply::Done | Reply::Field(_) | Reply::Asked(_) | Reply::Nothing => false,
    }
}

/// Whether one of these replies is.
pub fn any_wrong(replies: &[Reply]) -> bool
    ensures { result ≡ list_any wrong.is_wrong replies.now }
{
    replies.iter().any(|reply| is_wrong(reply))
}

/// Whether the reply of one of these outcomes is.
pub fn any_outcome_wrong(outcomes: &[Outcome]) -> bool
    ensures { result ≡ list_any (λ o. wrong.is_wrong o.reply) outcomes.now }
{
    outcomes.iter().any(|outcome| is_wrong(&outcome.reply))
}

/// Whether the reply of one of these outcomes is, or of those.
pub fn any_of_both_wrong(outcomes: &[Outcome], later: &[Outcome]) -> bool
    ensures { result ≡ list_any (λ o. wrong.is_wrong o.reply) (outcomes.now ++ later.now) }
{
    any_outcome_wrong(outcomes) || any_outcome_wrong(later)
}
