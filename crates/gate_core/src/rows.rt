//! Worked examples that the checker computes from the definitions: no code runs.
#![tactic(auto, unfolding(path_normal::specs::PageText::authority_of))]

ghost use Rattle.std.specs.Prelude.{Ok, Err, []};
ghost use Rattle.gate_core.specs.Replies.{Begins, Arrives, Asks, Starts, Returns, Finishes, IsNext, NoneFree};
ghost use Rattle.gate_core.specs.declared.refusal.AskRefusal.TheVariants as refusals;
ghost use Rattle.gate_history.specs.declared.outcome.Cause.TheVariants as causes;
ghost use Rattle.gate_history.specs.Rows.{foobot, page, site};
ghost use Rattle.gate_core.specs.Rows.{book, usual, one_place, other_page, barbot, no_file_brought};
ghost use Rattle.gate_core.specs.Rows.{begun, open_site, granted, started_at, go, no, two_granted, one_expired};
ghost use Rattle.gate_core.specs.Rows.{finished, not_out, last_number, last_returned};

/// A site without robots.txt: its turn, answer, permit and start.
pub fn missing_robots()
    ensures begin { Begins (usual []) site 100 (Ok 1) (usual begun) }
    ensures arrive { Arrives (usual begun) site 1 no_file_brought 105 (Ok tt) (usual open_site) }
    ensures ask { Asks (usual open_site) foobot page 110 (Ok 65536) (usual granted) }
    ensures start { Starts (usual granted) 65536 foobot page 120 (Ok (go 65536 page))
        (usual (started_at 120)) }
{}

/// The answer's age at the start decides: 24 hours after the begin it is in force, a second later not, and
/// a denied start has spent its permit.
pub fn expiry_at_start()
    ensures in_force { Starts (usual granted) 65536 foobot page 86500 (Ok (go 65536 page))
        (usual (started_at 86500)) }
    ensures expired { Starts (usual two_granted) 65537 foobot other_page 86501
        (Err (no other_page causes.Expired)) (usual one_expired) }
    ensures spent { Starts (usual one_expired) 65537 foobot other_page 86502
        (Err (no other_page causes.Spent)) (usual one_expired) }
{}

/// A permit serves its own token once, and another token's start spends nothing.
pub fn spent_once()
    ensures foreign { Starts (usual granted) 65536 barbot page 111
        (Err (no page causes.Spent)) (usual granted) }
    ensures own { Starts (usual granted) 65536 foobot page 112 (Ok (go 65536 page))
        (usual (started_at 112)) }
    ensures again { Starts (usual (started_at 112)) 65536 foobot page 113
        (Err (no page causes.Spent)) (usual (started_at 112)) }
    ensures back { Returns (usual (started_at 112)) 65536 (Err not_out) (usual (started_at 112)) }
    ensures done { Finishes (usual (started_at 112)) 65536 (Ok tt) (usual finished) }
    ensures done_again { Finishes (usual finished) 65536 (Err not_out) (usual finished) }
{}

/// An authority's one place is taken from the grant to the end of the fetch.
pub fn one_place_for_a_site()
    ensures unspent { Asks (one_place granted) barbot other_page 111 (Err refusals.Busy)
        (one_place granted) }
    ensures running { Asks (one_place (started_at 112)) foobot page 116 (Err refusals.Busy)
        (one_place (started_at 112)) }
{}

/// One slot: each grant has the next generation, until the last.
pub fn one_slot()
    ensures taken { NoneFree (book 1 1 granted) }
    ensures next { IsNext (book 1 1 finished) 131072 }
    ensures last { IsNext (book 1 281474976710655 open_site) last_number }
    ensures retired { NoneFree (book 1 281474976710655 last_returned) }
{}
