//! A job in the words of a line (docs/FORMATS.md, jobs).
ghost use Rattle.command_lines.specs.CallOf.{job_words_of};
ghost use Rattle.path_normal.specs.Capacity.{IsRead};
ghost use Rattle.command_lines.specs.JobWords.{job_of};
ghost use Rattle.line_text.specs.Words.{words_left};

use crate::calls::read_job_of;
use crate::command::plain_text;
use crate::fault::LineFault;
use crawl_job::Job;
use line_text::Words;
use path_normal::Schemes;
use robots_text::LastToken;
use std::alloc::Global;

/// Reads a line `<token> <url>`, without its line end, with a URL of these schemes.
pub fn read_job(alloc: Global, schemes: Schemes, line: &[u8]) -> Result<Job, LineFault>
    ensures { IsRead result (job_of schemes line.now) }
{
    match plain_text(line) {
        Some(text) => read_words(alloc, schemes, Words::of(text)),
        None => Err(LineFault::Chars),
    }
}

fn read_words(alloc: Global, schemes: Schemes, words: Words<'_>) -> Result<Job, LineFault>
    ensures { IsRead result (job_words_of schemes (words_left words.entry)) }
{
    if !words.count_is_within(2, 2) {
        return Err(LineFault::Words);
    }
    let mut words = words;
    let token = words.first();
    let url = words.first();
    read_job_of(alloc, schemes, token, url, &LastToken::none())
}
