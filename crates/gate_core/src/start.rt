//! `Book::start` and `Book::start_standing`: spend a permit, whose fetch begins or is denied.
//! RFC 9309, section 2.4.
ghost use Rattle.std.specs.Prelude.{◌≡◌, ◌≤◌, Err, IfSome, Ok, true};
ghost use Rattle.gate_history.specs.declared.entry.Entry.TheVariants.{StartDenied, Started as Allowed};
ghost use Rattle.gate_history.specs.History.{now};
ghost use Rattle.gate_history.specs.Legal.{SpendsAs};
ghost use Rattle.gate_history.specs.Outstanding.{stands};
ghost use Rattle.gate_core.specs.Gate.{Adds, history};
ghost use Rattle.gate_history.specs.Ruling.{IsRuling};
ghost use Rattle.gate_core.specs.Replies.{Starts};

use crate::book::Book;
use crate::refusal::{Denial, Started};
use gate_history::{Cause, Entry, Reason, Ruling};
use path_normal::PageUrl;
use permit_book::PermitNo;
use robots_text::Token;

impl Book {
    /// Starts the fetch of an unspent permit. The answer in force at this start decides, not the one at the
    /// grant, and a denied start spends the permit too. It allocates nothing, and a full log can't refuse
    /// it.
    pub fn start(
        &mut self,
        number: PermitNo,
        token: &Token,
        url: PageUrl,
        moment: u64,
    ) -> Result<Started, Denial>
        ensures { Starts self.old number token.now url moment result self.new }
    {
        if !self.stands(number, token, &url) {
            return Err(Denial {
                url,
                cause: Cause::Spent,
            });
        }
        self.start_standing(number, token, url, None, moment)
    }

    /// Starts the fetch of a permit known to be unspent, with that token and URL, by a verdict that may be
    /// known. It counts only if the answer in force has the text of the policy that gave it.
    pub fn start_standing(
        &mut self,
        number: PermitNo,
        token: &Token,
        url: PageUrl,
        ruling: Option<&Ruling>,
        moment: u64,
    ) -> Result<Started, Denial>
        requires stands { stands (history self.old) number token.now url ≡ true }
        requires ruled { IfSome ruling (λ ruling. IsRuling token.now url ruling.now) }
        ensures { Starts self.old number token.now url moment result self.new }
    {
        let moment = self.moment_of_call(moment);
        match self.decide(token, &url, ruling, moment) {
            Ok(reason) => {
                self.enter_start(number, reason, moment);
                Ok(Started {
                    number,
                    url,
                    reason,
                })
            }
            Err(cause) => {
                self.enter_denial(number, cause, moment);
                Err(Denial { url, cause })
            }
        }
    }

    fn enter_start(&mut self, number: PermitNo, reason: Reason, moment: u64)
        requires late { now (history self.old) ≤ moment }
        requires spends { SpendsAs (history self.old) number moment (Ok reason) }
        ensures { Adds self.old (Allowed moment number reason) self.new }
    {
        self.permits.decide(number, true);
        self.entries.push_reserved(Entry::Started {
            moment,
            number,
            reason,
        });
        self.clock = moment;
        self.starts += 1;
    }

    fn enter_denial(&mut self, number: PermitNo, cause: Cause, moment: u64)
        requires late { now (history self.old) ≤ moment }
        requires spends { SpendsAs (history self.old) number moment (Err cause) }
        ensures { Adds self.old (StartDenied moment number cause) self.new }
    {
        self.places.leave(&self.permits, number);
        self.permits.decide(number, false);
        self.entries.push_reserved(Entry::StartDenied {
            moment,
            number,
            cause,
        });
        self.clock = moment;
    }
}
