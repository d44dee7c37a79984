//! A robots text, ready for verdicts.
//! RFC 9309, section 2.2.2.
ghost use Rattle.std.specs.Prelude.{◌≡◌, ◌≢◌, IfOk};
ghost use Rattle.std.specs.Arc.{arc_value};
ghost use Rattle.robots_text.specs.Records.{numbered_records};
ghost use Rattle.robots_verdict.specs.Index.{IsIndexOf};
ghost use Rattle.robots_verdict.specs.Strongest.{IsBest};
ghost use Rattle.robots_verdict.specs.Verdict.{IsVerdict, robots_path};

use crate::decision::{Allowed, Verdict, is_robots_path, verdict_of};
use crate::index::Index;
use crate::normal_text::NormalText;
use crate::weight::Weight;
use memchr::memchr_iter;
use path_pattern::{Path, SuffixArray, empty_room};
use robots_text::{RobotsText, Token};
use std::alloc::{AllocError, Global};
use std::boxed::Box;
use std::marker::Model;
use std::sync::Arc;
use std::sync::atomic::{AtomicU64, Ordering};

// An index is made after this many walks over the text. It takes as long as one or two walks, but up to
// three times the text's memory, and most sites are asked less often.
const WALKS: u64 = 16;

// The longest text that is walked in about ten microseconds, and how many patterns with special characters
// take as long.
const SHORT_TEXT: usize = 1_024;

const FEW_OTHERS: usize = 32;

// Sorting a path's places takes a few milliseconds, a tenth of one for a short path. It pays if wildcards
// may take longer: for a path over `SHORT_PATH` octets, with a text over `LONG_TEXT` that has more than
// `FEW_STARS` wildcards, or an index with as many such patterns.
const SHORT_PATH: usize = 512;

const LONG_TEXT: usize = 16_384;

const FEW_STARS: usize = 64;

// A text with more wildcards is indexed after the first walk that tries them on a long path.
const MANY_STARS: usize = 1_000;

/// A robots text, perhaps indexed. Without an index, verdicts walk over the text.
pub struct Policy {
    text: Arc<NormalText>,
    // In its own allocation: most policies have none.
    index: Option<Box<Index>>,
    // How many verdicts walked over the text.
    walks: AtomicU64,
}

// Let go by one call: no crate above proves anew how its parts end.
impl Drop for Policy {
    fn drop(self) {
        let Policy {
            text: _,
            index: _,
            walks: _,
        } = self;
    }
}

impl Model for Policy {
    ghost use Rattle.std.specs.Prelude.{IfSome, List, ℕ, box_value};
    ghost use Rattle.std.specs.Coded.{coded_list, coded_ℕ};

    ghost Value = { List ℕ };

    ghost coded = { coded_list coded_ℕ };

    ghost use Rattle.std.specs.Arc.{arc_value};
    ghost use Rattle.robots_verdict.specs.Index.{IsIndexOf};

    ghost view = { λ policy. arc_value policy.text };

    ghost invariant = { λ policy.
        IfSome policy.index (λ index. IsIndexOf (arc_value policy.text) (box_value index)) };
}

impl Policy {
    /// The policy of a text, without an index. Allocates the patterns that are not written in normal form.
    pub fn new(alloc: Global, text: RobotsText) -> Result<Policy, AllocError>
        ensures { IfOk result (λ policy. policy ≡ text) }
    {
        let text = Arc::new(alloc, NormalText::of(alloc, text)?)?;
        Ok(Policy {
            text,
            index: None,
            walks: AtomicU64::new(0),
        })
    }

    /// This policy with an index. Allocates its rules, but not the text.
    pub fn indexed(&self, alloc: Global) -> Result<Policy, AllocError>
        ensures { IfOk result (λ policy. policy ≡ self.now) }
    {
        let index = Box::new(alloc, Index::of(alloc, &self.text)?)?;
        Ok(Policy {
            text: Arc::try_clone(&self.text)?,
            index: Some(index),
            walks: AtomicU64::new(0),
        })
    }

    /// Whether it has an index.
    pub fn is_indexed(&self) -> bool {
        self.index.is_some()
    }

    /// Whether enough verdicts walked over the text for an index to pay.
    pub fn wants_index(&self) -> bool {
        self.index.is_none() && self.walks.load(Ordering::Relaxed) >= WALKS
    }

    /// Whether a verdict is slow, so that no lock should be held for it: by the text's length, or, if
    /// indexed, by its patterns with special characters. Also true while an index is wanted.
    pub fn is_slow(&self) -> bool {
        match &self.index {
            Some(index) => index.ranks.other_count() > FEW_OTHERS,
            None => self.wants_index() || self.text().bytes().len() > SHORT_TEXT,
        }
    }

    /// The text of the policy.
    pub fn text(&self) -> &RobotsText
        ensures { result.now ≡ self.now }
    {
        self.text.text()
    }

    /// Whether a crawler with this token may fetch the path, given in normal form, and by which line. Takes
    /// no memory.
    pub fn verdict(&self, token: &Token, path: &[u8]) -> Verdict
        ensures { IsVerdict (numbered_records self.now) token.now path.now result }
    {
        if is_robots_path(path) {
            return Verdict::Allow(Allowed::RobotsPath);
        }
        if self.wants_places(path) {
            self.slow_verdict(token, path)
        } else {
            self.verdict_elsewhere(token, &mut Path::new(path))
        }
    }

    // Whether sorting the path's places pays: it is long, and many patterns with special characters may be
    // tried on it.
    fn wants_places(&self, path: &[u8]) -> bool {
        path.len() > SHORT_PATH
            && match &self.index {
                Some(index) => index.ranks.other_count() > FEW_STARS,
                None => {
                    let text = self.text().bytes();
                    text.len() > LONG_TEXT && has_more_stars(text, FEW_STARS)
                }
            }
    }

    // The verdict when many patterns may be tried on a long path. Takes much stack, which other verdicts
    // don't need.
    #[inline(never)]
    fn slow_verdict(&self, token: &Token, path: &[u8]) -> Verdict
        requires { path.now ≢ robots_path }
        ensures { IsVerdict (numbered_records self.now) token.now path.now result }
    {
        self.count_slow();
        let places = SuffixArray::of(path);
        let mut room = empty_room();
        self.verdict_elsewhere(token, &mut Path::with(path, &places, &mut room))
    }

    // Counts a walk that tries very many patterns as enough for an index.
    fn count_slow(&self) {
        if self.index.is_none() && has_more_stars(self.text().bytes(), MANY_STARS) {
            self.walks.fetch_add(WALKS, Ordering::Relaxed);
        }
    }

    fn verdict_elsewhere(&self, token: &Token, path: &mut Path<'_, '_>) -> Verdict
        requires { path.old ≢ robots_path }
        ensures { IsVerdict (numbered_records self.now) token.now path.old result }
    {
        match &self.index {
            Some(index) => self.verdict_by(index, token, path),
            None => {
                self.walks.fetch_add(1, Ordering::Relaxed);
                verdict_of(self.text.strongest(token, path))
            }
        }
    }

    fn verdict_by(&self, index: &Index, token: &Token, path: &mut Path<'_, '_>) -> Verdict
        requires index { IsIndexOf self.now index.now }
        requires elsewhere { path.old ≢ robots_path }
        ensures { IsVerdict (numbered_records self.now) token.now path.old result }
    {
        let groups = index.heads.groups_for(token.text().as_bytes());
        index
            .rows
            .verdict(index.ranks.first(&index.rows, groups, path))
    }

    /// The weight of the strongest line that applies, by a walk over the text.
    pub(crate) fn strongest_by_text(&self, token: &Token, path: &mut Path<'_, '_>) -> Option<Weight>
        ensures { IsBest (numbered_records self.now) token.now path.old result }
    {
        self.text.strongest(token, path)
    }
}

/// Whether sorting a path's places pays where each pattern of a text may be tried on it.
pub fn pays_to_sort(text: &RobotsText, path: &[u8]) -> bool {
    path.len() > SHORT_PATH && has_more_stars(text.bytes(), FEW_STARS)
}

fn has_more_stars(text: &[u8], count: usize) -> bool {
    memchr_iter(b'*', text).nth(count).is_some()
}
