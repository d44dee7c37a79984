//! Laws of the text format.
//! docs/FORMATS.md has the lines and texts.
ghost use Rattle.crawl_audit.specs.Laws.{EndsAreChains, ExportIsChain, FrontsAreRead, HttpChainIsNeverBad};
ghost use Rattle.crawl_audit.specs.Laws.{HttpChainsNameHttp, OneBase, OneEntry, OneHistory};
ghost use Rattle.crawl_audit.specs.Laws.{OneNextBase, OneStep, ReadsAreFronts};
ghost use Rattle.crawl_audit.specs.Laws.{RightChainIsNeverBad, SegmentIsChain, SegmentsGoOn};

/// A line is at most one entry, and a text at most one history.
pub fn each_text_has_one_history()
    ensures entry { OneEntry }
    ensures history { OneHistory }
{}

/// An export is a chain of one text, and segments sealed one after the other are a chain.
pub fn each_export_is_right()
    ensures export { ExportIsChain }
    ensures segment { SegmentIsChain }
    ensures goes_on { SegmentsGoOn }
{}

/// The state of a history has at most one base in order, so what was read determines the base of the next
/// text.
pub fn each_history_leads_to_one_base()
    ensures { OneNextBase }
{}

/// Lines begin with those of at most one base.
pub fn each_text_has_one_base()
    ensures { OneBase }
{}

/// The text of a chain that names only the schemes read has no bad line. An audit accepts it unless a read
/// fails or memory runs out.
pub fn each_chain_is_right()
    ensures { RightChainIsNeverBad }
{}

/// The lines of a chain name only `http` exactly if its entries and bases do. An audit of `http` alone
/// accepts each such chain, unless a read fails or memory runs out, and no other.
pub fn each_http_chain_names_http()
    ensures lines { HttpChainsNameHttp }
    ensures right { HttpChainIsNeverBad }
{}

/// Reading line by line accepts exactly the lines with which a valid text may begin, and each line leads to
/// one state. If a text may end there, the lines are those of a chain.
pub fn texts_are_read_by_lines()
    ensures step { OneStep }
    ensures fronts { FrontsAreRead }
    ensures reads { ReadsAreFronts }
    ensures ends { EndsAreChains }
{}
