//! The audit: whether texts are a chain of segments of a legal history, or which line continues none.
//! docs/FORMATS.md; RFC 9309, sections 2.2.2, 2.3.1 and 2.4.
ghost use Rattle.std.specs.Prelude.{◌≡◌, List, Some, ℕ, IfErr, IfOk};
ghost use Rattle.path_normal.specs.declared.schemes.Schemes.TheVariants.{Http};
ghost use Rattle.crawl_audit.specs.Audit.{IsFault, failures_after_audit};
ghost use Rattle.crawl_audit.specs.ChainAudit.{IsChainAudited};

use crate::auditor::{Auditor, MAX_LINES};
use crate::fault::{AuditFault, Audited};
use counted_io::Source;
use path_normal::Schemes;
use std::alloc::Global;
use std::hash::RandomState;

/// Reads the texts of one or more segments to the end or the first bad line, and derives every decision
/// anew. It holds one line, and tables hashed with these keys. Lines are counted over all texts. A line
/// that names an `https` site or page is bad.
pub fn audit<R: Source>(
    alloc: Global,
    keys: RandomState,
    reader: &mut R,
) -> Result<Audited, AuditFault>
    ensures ok { IfOk result (λ audited. (text : List ℕ) → R.left reader.old ≡ Some text
        → IsChainAudited Http text audited) }
    ensures fault { IfErr result (λ fault. (text : List ℕ) → R.left reader.old ≡ Some text
        → IsFault Http text fault) }
    ensures reads { R.failures reader.new ≡ failures_after_audit (R.failures reader.old) result }
{
    audit_among(alloc, keys, Schemes::Http, reader)
}

/// Like `audit`, for sites of these schemes. A line that names another scheme is bad.
pub fn audit_among<R: Source>(
    alloc: Global,
    keys: RandomState,
    schemes: Schemes,
    reader: &mut R,
) -> Result<Audited, AuditFault>
    ensures ok { IfOk result (λ audited. (text : List ℕ) → R.left reader.old ≡ Some text
        → IsChainAudited schemes text audited) }
    ensures fault { IfErr result (λ fault. (text : List ℕ) → R.left reader.old ≡ Some text
        → IsFault schemes text fault) }
    ensures reads { R.failures reader.new ≡ failures_after_audit (R.failures reader.old) result }
{
    let mut auditor = Auditor::new(alloc, keys, schemes)?;
    // The allowed lines, one too many, and the end.
    for _taken in 0..MAX_LINES + 2 {
        match auditor.take(alloc, reader) {
            Ok(more) => {
                if !more {
                    return Ok(auditor.into_audited());
                }
            }
            Err(fault) => {
                drop(auditor);
                return Err(fault);
            }
        }
    }
    unreachable!()
}
