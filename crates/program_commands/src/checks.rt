//! `check` over the standard streams, with a file for the robots text if named.
//! Input and output are in docs/FORMATS.md.
use crate::ending::Ending;
use crate::reasoned::Reasoned;
use crate::robots_file::read_file;
use crate::streams::Stream;
use crate::telling::tell_failed;
use counted_io::{Counted, Source};
use program_arguments::{CheckDetail, CheckOptions, CheckedText, CheckedUrls};
use robots_check::{Detail, check, check_input, check_lines};
use robots_text::Token;

/// Checks URLs against the robots text on standard input or in a file.
pub(crate) fn check_streams(rt: &HostRuntime, options: CheckOptions) -> Ending {
    let CheckOptions {
        token,
        text,
        urls,
        detail,
    } = options;
    let detail = match detail {
        CheckDetail::Plain => Detail::Plain,
        CheckDetail::Explained => Detail::Explained,
    };
    match text {
        CheckedText::Input => check_by_input(rt, &token, urls, detail),
        CheckedText::File(name) => match read_file(rt, name.as_str()) {
            Ok(body) => check_by_body(rt, body.as_slice(), &token, urls, detail),
            Err(ending) => ending,
        },
    }
}

fn check_by_input(rt: &HostRuntime, token: &Token, urls: CheckedUrls, detail: Detail) -> Ending {
    let mut reader = Counted::new(Reasoned::new(rt.stdin()));
    let end = match urls {
        CheckedUrls::Words(words) => check_words(rt, &mut reader, token, words.as_slice(), detail),
        CheckedUrls::Input => check_read(rt, &mut reader, token, detail),
    };
    tell_failed(rt, end, Stream::Input, reader)
}

fn check_read<R: Source>(
    rt: &HostRuntime,
    reader: &mut R,
    token: &Token,
    detail: Detail,
) -> Ending {
    let mut writer = Counted::new(Reasoned::new(rt.stdout()));
    let mut errors = Counted::new(rt.stderr());
    let end = check_input(rt.alloc(), reader, &mut writer, &mut errors, token, detail);
    tell_failed(rt, Ending::of_check(end), Stream::Output, writer)
}

fn check_by_body(
    rt: &HostRuntime,
    body: &[u8],
    token: &Token,
    urls: CheckedUrls,
    detail: Detail,
) -> Ending {
    match urls {
        CheckedUrls::Words(words) => {
            let mut reader = Counted::new(body);
            check_words(rt, &mut reader, token, words.as_slice(), detail)
        }
        CheckedUrls::Input => check_given(rt, body, token, detail),
    }
}

fn check_given(rt: &HostRuntime, body: &[u8], token: &Token, detail: Detail) -> Ending {
    let mut reader = Counted::new(Reasoned::new(rt.stdin()));
    let mut writer = Counted::new(Reasoned::new(rt.stdout()));
    let mut errors = Counted::new(rt.stderr());
    let end = check_lines(
        rt.alloc(),
        body,
        &mut reader,
        &mut writer,
        &mut errors,
        token,
        detail,
    );
    let end = tell_failed(rt, Ending::of_check(end), Stream::Input, reader);
    tell_failed(rt, end, Stream::Output, writer)
}

fn check_words<R: Source>(
    rt: &HostRuntime,
    reader: &mut R,
    token: &Token,
    words: &[String],
    detail: Detail,
) -> Ending {
    let mut urls = Vec::new(rt.alloc());
    for word in words {
        if urls.push(word.as_bytes()).is_err() {
            return Ending::NoMemory;
        }
    }
    check_urls(rt, reader, token, urls.as_slice(), detail)
}

fn check_urls<R: Source>(
    rt: &HostRuntime,
    reader: &mut R,
    token: &Token,
    urls: &[&[u8]],
    detail: Detail,
) -> Ending {
    let mut writer = Counted::new(Reasoned::new(rt.stdout()));
    let mut errors = Counted::new(rt.stderr());
    let alloc = rt.alloc();
    let end = check(alloc, reader, &mut writer, &mut errors, token, urls, detail);
    tell_failed(rt, Ending::of_check(end), Stream::Output, writer)
}
