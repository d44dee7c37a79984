//! The line of an entry of a history, as pieces.
//! docs/FORMATS.md has the kinds as a table.
ghost use Rattle.std.specs.Prelude.{◌≡◌, ◌<◌, All, Some};
ghost use Rattle.path_normal.specs.PageUrl.{IsPage};
ghost use Rattle.robots_text.specs.Token.{token_of};
ghost use Rattle.robots_verdict.specs.Answer.{said};
ghost use Rattle.history_text.specs.Entries.{HasFields, IsSaid};
ghost use Rattle.line_text.specs.Pieces.{pieces_text};
ghost use Rattle.history_text.specs.AnswerContent.{said_content};
ghost use Rattle.history_text.specs.Spell.{entry_line};

use crate::kinds::{
    AnswerContent, arrived, ask_denied, begun, finished, granted, returned, start_denied, started,
    swept,
};
use crate::version::Version;
use gate_history::Entry;
use line_text::Pieces;
use path_normal::PageUrl;
use robots_text::Token;
use robots_verdict::{Answer, Said};

/// The line of an entry.
pub(crate) fn entry_pieces(version: Version, entry: &Entry) -> Pieces<'_>
    ensures text { pieces_text result ≡ entry_line version entry.now }
    ensures fields { HasFields entry.now }
{
    match entry {
        Entry::Begun {
            moment,
            authority,
            turn,
        } => begun(*moment, authority, *turn),
        Entry::Arrived {
            moment,
            authority,
            turn,
            says,
            life,
        } => {
            let life = u64::from(*life);
            arrived(version, *moment, authority, *turn, told_in(says), life)
        }
        Entry::Granted {
            moment,
            number,
            fetch,
        } => granted(*moment, *number, fetch),
        Entry::AskDenied {
            moment,
            fetch,
            cause,
        } => ask_denied(*moment, fetch, *cause),
        Entry::Started {
            moment,
            number,
            reason,
        } => started(*moment, *number, *reason),
        Entry::StartDenied {
            moment,
            number,
            cause,
        } => start_denied(*moment, *number, *cause),
        Entry::Returned { number } => returned(*number),
        Entry::Finished { number } => finished(*number),
        Entry::Swept { moment, count } => swept(*moment, *count),
    }
}

/// The octets of a token.
pub(crate) fn token_octets(token: &Token) -> &[u8]
    ensures value { result.now ≡ token.now }
    ensures own { token_of token.now ≡ Some token.now }
{
    token.text().as_bytes()
}

/// The octets of a URL.
pub(crate) fn url_octets(url: &PageUrl) -> &[u8]
    ensures value { result.now ≡ url.now }
    ensures page { IsPage url.now }
{
    url.text().as_bytes()
}

/// What an answer says.
pub fn told_by(answer: &Answer) -> AnswerContent<'_>
    ensures said { said_content result ≡ said answer.now }
    ensures body { IsSaid (said answer.now) }
{
    match answer {
        Answer::Rules(rules) => AnswerContent::Rules(octets(rules.policy().text().bytes())),
        Answer::Open(opening) => AnswerContent::Open(*opening),
        Answer::Closed(closure) => AnswerContent::Closed(*closure),
    }
}

/// What the history says of an answer.
pub(crate) fn told_in(says: &Said) -> AnswerContent<'_>
    ensures said { said_content result ≡ says.now }
    ensures body { IsSaid says.now }
{
    match says {
        Said::Rules(handle) => AnswerContent::Rules(octets(handle.policy().text().bytes())),
        Said::Open(opening) => AnswerContent::Open(*opening),
        Said::Closed(closure) => AnswerContent::Closed(*closure),
    }
}

// These octets, each known to a clause to be below 256.
fn octets(octets: &[u8]) -> &[u8]
    ensures value { result.now ≡ octets.now }
    ensures octets { All (λ octet. octet < 256) octets.now }
{
    octets
}
