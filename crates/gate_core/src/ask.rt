//! `Book::ask` and `Book::ask_judged`: a permit for one fetch of a URL under a token.
//! RFC 9309, sections 2.2 and 2.3.1.
ghost use Rattle.std.specs.Prelude.{◌≡◌, ◌≤◌, Err, IfErr, IfOk, OnErr, OnOk, Ok};
ghost use Rattle.gate_history.specs.declared.entry.Entry.TheVariants.{AskDenied};
ghost use Rattle.gate_history.specs.declared.outcome.Reason.{Reason as Why};
ghost use Rattle.gate_history.specs.Cause.{Decides};
ghost use Rattle.gate_history.specs.History.{now};
ghost use Rattle.gate_core.specs.Gate.{Adds, HasRoom, history, Stays};
ghost use Rattle.gate_core.specs.Limits.{most_places};
ghost use Rattle.gate_core.specs.Opened.{Grants, TakesNone, TakesPermit};
ghost use Rattle.gate_core.specs.PlaceCounts.{held_by};
ghost use Rattle.gate_core.specs.Replies.{Asks};

use crate::book::Book;
use crate::judged::Judged;
use crate::place_counts::PlaceCounts;
use crate::refusal::{AskRefusal, Denial};
use gate_history::{Cause, Entry, Ruling};
use path_normal::PageUrl;
use permit_book::{Fetch, PermitNo, Permits};
use robots_text::Token;
use std::alloc::AllocError;

impl Book {
    /// Asks for a permit. Room is made for its start and end, which then allocate nothing.
    pub fn ask(&mut self, token: Token, url: PageUrl, moment: u64) -> Result<PermitNo, AskRefusal>
        ensures { Asks self.old token url moment result self.new }
    {
        self.cache.make_index(url.authority());
        self.ask_judged(Judged::new(None, token, url), moment)
    }

    /// Asks with an ask that was prepared before. Its verdict counts only if the answer in force now has
    /// the text of the policy that gave it.
    pub fn ask_judged(&mut self, judged: Judged, moment: u64) -> Result<PermitNo, AskRefusal>
        ensures { Asks self.old judged.token judged.url moment result self.new }
    {
        if !self.has_room(3) {
            return Err(AskRefusal::LogFull);
        }
        let moment = self.moment_of_call(moment);
        let Judged { fetch, ruling } = judged;
        let decided = self.decide(&fetch.token, &fetch.url, ruling.as_ref(), moment);
        self.take_index(fetch.url.authority(), ruling);
        match decided {
            Ok(_) => self.grant(fetch, moment),
            Err(cause) => {
                self.deny(&fetch, cause, moment)?;
                Err(AskRefusal::Denied(Denial {
                    url: fetch.url,
                    cause,
                }))
            }
        }
    }

    // Gives the rules in force the index of the policy that judged.
    fn take_index(&mut self, authority: &str, ruling: Option<Ruling>)
        ensures { self.new ≡ self.old }
    {
        if let Some(ruling) = ruling {
            self.cache.take_index(authority, ruling.into_policy());
        }
    }

    fn deny(&mut self, fetch: &Fetch, cause: Cause, moment: u64) -> Result<(), AllocError>
        requires room { HasRoom self.old 3 }
        requires late { now (history self.old) ≤ moment }
        requires decided { Decides (history self.old) fetch.now.token fetch.now.url moment
            (Err cause) }
        ensures ok { OnOk result (Adds self.old (AskDenied moment fetch.now cause) self.new) }
        ensures err { OnErr result (Stays self.old self.new) }
    {
        let entered = fetch.copy()?;
        let promised = self.promised();
        self.entries.reserve(promised as usize + 1)?;
        self.entries.push_reserved(Entry::AskDenied {
            moment,
            fetch: entered,
            cause,
        });
        self.clock = moment;
        Ok(())
    }

    // Makes room for the permit with its start and end, and grants it if the authority has a place.
    fn grant(&mut self, fetch: Fetch, moment: u64) -> Result<PermitNo, AskRefusal>
        requires room { HasRoom self.old 3 }
        requires late { now (history self.old) ≤ moment }
        requires decided { (reason : Why)
            × Decides (history self.old) fetch.token fetch.url moment (Ok reason) }
        ensures { Grants self.old fetch.token fetch.url moment result self.new }
    {
        let promised = self.promised();
        self.entries.reserve(promised as usize + 3)?;
        let most = self.limits.places;
        let number = take_permit(&mut self.permits, &mut self.places, most, &fetch)?;
        self.entries.push_reserved(Entry::Granted {
            moment,
            number,
            fetch,
        });
        self.clock = moment;
        Ok(number)
    }
}

// Grants and counts the table's next permit for a fetch, if the authority is below its limit and a slot is
// free. If memory runs out, dropping the draft leaves the table unchanged.
fn take_permit(
    permits: &mut Permits,
    places: &mut PlaceCounts,
    most: u64,
    fetch: &Fetch,
) -> Result<PermitNo, AskRefusal>
    requires { most ≤ most_places }
    ensures ok { IfOk result (λ number.
        TakesPermit permits.old (held_by places.old) most fetch.now.token fetch.now.url number
        permits.new (held_by places.new)) }
    ensures err { IfErr result (λ refusal.
        TakesNone permits.old (held_by places.old) most fetch.now.url refusal permits.new
        (held_by places.new)) }
{
    let Fetch { token, url } = fetch.copy()?;
    let found = places.find(url.authority());
    if found.count >= most {
        return Err(AskRefusal::Busy);
    }
    let Ok(draft) = permits.draft() else {
        return Err(AskRefusal::PermitsFull);
    };
    places.add(found, url.authority())?;
    Ok(draft.commit(token, url))
}
