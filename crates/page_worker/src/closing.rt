//! What closed a site, once its answer is known.
//! RFC 9309, sections 2.3.1.2 and 2.3.1.4.
ghost use Rattle.std.specs.Prelude.{◌≡◌};
ghost use Rattle.robots_verdict.specs.Answer.{said};
ghost use Rattle.page_worker.specs.Closings.{decided_by, leads_to_https};

use fetchers::ClosedBy;
use robots_fetch::RobotsReply;
use robots_text::is_same_word;
use robots_verdict::{Answer, Closure};

/// What decided this fetched answer, after what its fetch met; for a redirect, why it is not followed.
pub(crate) fn decided_by(met: ClosedBy, reply: &RobotsReply, answer: &Answer) -> ClosedBy
    ensures { result ≡ decided_by met reply.now (said answer.now) }
{
    match answer {
        Answer::Closed(Closure::Scheme) if leads_to_https(reply) => ClosedBy::Https,
        Answer::Closed(Closure::Scheme) => ClosedBy::OtherScheme,
        Answer::Closed(Closure::BadRedirect) => ClosedBy::BadRedirect,
        _ => met,
    }
}

// Whether the Location begins with `https:`, in any case.
fn leads_to_https(reply: &RobotsReply) -> bool
    ensures { result ≡ leads_to_https reply.now }
{
    match reply {
        RobotsReply::Status {
            location: Some(location),
            ..
        } => {
            let octets = location.as_bytes();
            is_same_word(&octets[..octets.len().min(6)], b"https:")
        }
        _ => false,
    }
}
