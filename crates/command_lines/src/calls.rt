//! Reads each verb's arguments, from left to right, into a call.
//! Used by `command`, once their number is right.
ghost use Rattle.std.specs.Prelude.{◌≡◌, ◌∷◌, [], IfOk, IsTrue};
ghost use Rattle.gate_core.specs.Calls.{HasSpare};
ghost use Rattle.path_normal.specs.Capacity.{IsRead};
ghost use Rattle.command_lines.specs.CallOf.{arrive_of, authority_alone, begin_of, job_words_of, permit_alone};
ghost use Rattle.command_lines.specs.CallOf.{page_alone, start_of, takes};
ghost use Rattle.line_text.specs.Words.{words_left};

use crate::arguments::{read_authority, read_known_page, read_number, read_page, read_token};
use crate::arrival::Arrival;
use crate::fault::LineFault;
use crate::known_pages::{Known, KnownPages};
use crate::line_words::LineWords;
use crate::reply_words::ReplyWords;
use crate::verbs::Verb;
use authority_cache::TurnNo;
use crawl_job::Job;
use gate_core::Call;
use line_text::Words;
use path_normal::{Authority, PageUrl, Schemes};
use permit_book::PermitNo;
use robots_text::LastToken;
use std::alloc::Global;

/// Reads the argument of `BEGIN`, `STATE` and `REFRESH`: `<authority>`.
pub fn read_authority_alone(
    alloc: Global,
    schemes: Schemes,
    words: LineWords<'_, '_>,
) -> Result<Authority, LineFault>
    requires { IsTrue (takes Verb.State words) }
    ensures { IsRead result (authority_alone schemes words.entry) }
{
    let mut words = words;
    let authority = words.first();
    let authority = read_authority(alloc, schemes, authority)?;
    Ok(authority)
}

/// Reads `ARRIVE <authority> <turn> <reply> ..`.
pub fn read_arrive(
    alloc: Global,
    schemes: Schemes,
    moment: u64,
    words: Words<'_>,
) -> Result<Arrival<'_>, LineFault>
    requires { IsTrue (takes Verb.Arrive (words_left words)) }
    ensures { IsRead result (arrive_of schemes moment (words_left words.entry)) }
{
    let mut words = words;
    let authority = words.first();
    let turn = words.first();
    let authority = read_authority(alloc, schemes, authority)?;
    let turn = TurnNo::new(read_number(turn)?);
    let replies = ReplyWords::of(words)?;
    Ok(Arrival {
        authority,
        turn,
        replies,
        moment,
    })
}

/// Reads the arguments of `ASK` and `FETCH`: `<token> <url>`.
pub fn read_job_words(
    alloc: Global,
    schemes: Schemes,
    words: LineWords<'_, '_>,
    last: &LastToken,
) -> Result<Job, LineFault>
    requires { IsTrue (takes Verb.Fetch words) }
    ensures { IsRead result (job_words_of schemes words.entry) }
{
    let mut words = words;
    let token = words.first();
    let url = words.first();
    read_job_of(alloc, schemes, token, url, last)
}

/// Reads the words `<token> <url>`.
pub fn read_job_of(
    alloc: Global,
    schemes: Schemes,
    token: &str,
    url: &str,
    last: &LastToken,
) -> Result<Job, LineFault>
    ensures { IsRead result (job_words_of schemes (token.now ∷ url.now ∷ [])) }
{
    let token = read_token(alloc, token, last)?;
    let url = read_page(alloc, schemes, url)?;
    Ok(Job { token, url })
}

/// Reads the argument of `BEGIN`: `<authority>`.
pub fn read_begin(
    alloc: Global,
    schemes: Schemes,
    moment: u64,
    words: LineWords<'_, '_>,
) -> Result<Call, LineFault>
    requires { IsTrue (takes Verb.Begin words) }
    ensures read { IsRead result (begin_of schemes moment words.entry) }
    ensures spare { IfOk result HasSpare }
{
    let authority = read_authority_alone(alloc, schemes, words)?;
    Ok(Call::Begin { authority, moment })
}

/// Reads `START <n> <token> <url>`, usually with the URL of the permit.
pub fn read_start<P: KnownPages>(
    alloc: Global,
    schemes: Schemes,
    moment: u64,
    words: LineWords<'_, '_>,
    known: &Known<'_, P>,
) -> Result<Call, LineFault>
    requires { IsTrue (takes Verb.Start words) }
    ensures read { IsRead result (start_of schemes moment words.entry) }
    ensures spare { IfOk result HasSpare }
{
    let mut words = words;
    let number = words.first();
    let number = PermitNo::new(read_number(number)?);
    let token = words.first();
    let url = words.first();
    let token = read_token(alloc, token, known.last)?;
    let url = read_known_page(alloc, schemes, url, known.pages.page_of(number))?;
    Ok(Call::Start {
        number,
        token,
        url,
        moment,
    })
}

/// Reads the argument of `URL`: `<url>`.
pub fn read_page_alone(
    alloc: Global,
    schemes: Schemes,
    words: LineWords<'_, '_>,
) -> Result<PageUrl, LineFault>
    requires { IsTrue (takes Verb.Url words) }
    ensures { IsRead result (page_alone schemes words.entry) }
{
    let mut words = words;
    let url = words.first();
    let url = read_page(alloc, schemes, url)?;
    Ok(url)
}

/// Reads the argument of `BACK` and `DONE`: `<n>`.
pub fn read_permit_alone(words: LineWords<'_, '_>) -> Result<PermitNo, LineFault>
    requires { IsTrue (takes Verb.Back words) }
    ensures { result ≡ permit_alone words.entry }
{
    let mut words = words;
    let number = words.first();
    let number = read_number(number)?;
    Ok(PermitNo::new(number))
}
