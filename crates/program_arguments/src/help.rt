//! The help of each subcommand on its lines, with an example.
//! See docs/FORMATS.md.

/// The version of the program. `packaging/stamp` puts the seven digits of a commit in the place of `unknown`,
/// in a program that was built.
pub(crate) const VERSION: &str = "0.1.0 (commit unknown)";

/// The lines of `replay`.
pub(crate) const REPLAY: &str =
    "Each line of the input is a moment in seconds, a verb and its words:
    100 BEGIN a.example
    105 ARRIVE a.example 1 404 -
    110 ASK foobot http://a.example/x
The reply is one line:
    TURN a.example 1
    TAKEN a.example open
    PERMIT 65536
or ERR and the cause. With --export the output is a history, which audit reads.";

/// The lines of `shift`.
pub(crate) const SHIFT: &str = "Each line of the input is a job: a product token and a URL,
    foobot http://a.example/x
The output has a line for each page of each job's redirects, and a last line with totals:
    1 1 PAGE norule 200 22 whole
    2 1 NO a.example line 2
    SHIFT jobs 2 hops 2 starts 1
With --tsv it is a table, and with --export a history, which audit reads.
An invalid line stops the run, and standard error says why. With --skip it is reported, and the
other jobs are done. The exit status is 1 in both cases.";

/// The lines of `serve`, and how clients of other machines connect.
pub(crate) const SERVE: &str =
    "A client connects and sends lines, each a verb and its words. The reply is one line:
    ASK foobot http://a.example/x
    PERMIT 65536
With --http it is also an HTTP proxy, with the product token as the proxy's user:
    http_proxy=http://foobot:x@127.0.0.1:4080/ curl http://a.example/x
The output has a line once clients can connect, and one at the end:
    LISTEN 127.0.0.1:4000
    SERVED connections 1 events 3

Any program that connects can make crawlgate fetch pages, so it listens only on 127.0.0.1. From
other machines use ssh -L, or a proxy that authenticates. When a session ends, its permits are
returned.";

/// The lines of `check`.
pub(crate) const CHECK: &str = "The output has a line for each URL, in order:
    allowed line 5 allow /private/map http://a.example/private/map
    denied line 4 disallow /private/ http://a.example/private/x
    allowed norule http://a.example/
    allowed robots http://a.example/robots.txt
    ERR url bad http://
With --explain the lines that apply stand before it:
    agent line 1 name foobot
    rule line 2 disallow /private/ octets 9 matches
    rule line 3 allow /private/map octets 12 no
    because only
A URL may also be a path that begins with `/`: only path and query count, and https is read as http.
If the only URL is `-`, URLs are read from standard input, one per line. Without --robots, the
robots.txt comes first, then an empty line, then the URLs. Use --robots if others wrote the file:
    crawlgate check --robots robots.txt foobot - < urls
The exit status is 0 if all are allowed, 1 if one is denied, and 2 if one can't be read.";

/// The lines of `lines`.
pub(crate) const LINES: &str =
    "The output has a line for each line of the input, with its number and what it means:
    1 agent name foobot
    2 disallow /private/
    3 other
Only the first 512,000 bytes are read; an incomplete last line is dropped.";

/// The lines of `audit`.
pub(crate) const AUDIT: &str =
    "The input is a history, as replay --export writes it, or consecutive segments from SEAL, oldest
first:
    cat history.txt | crawlgate audit
    cat segments/* | crawlgate audit
The output has totals, or the number of the first bad line:
    OK events 15 starts 1
    BAD line 7";
