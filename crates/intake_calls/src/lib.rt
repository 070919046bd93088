// What feeding and removing share: the checks, and the answer with the counts after it.
#![tactic(auto)]

ghost use Rattle.std.specs.Prelude.{◌≡◌};
ghost use Rattle.intake_calls.specs.Calls.{with_counts, CallVerdict};

use checks::{triple_wrong, words_wrong, work_wrong};
use intake_opening::{Counts, lengths_wrong};
use model::{Refusal, Reply, Triple, Vocabulary};
use roster_checks::{covers_triple, roster_wrong};

// What a call leaves: the answer and the record.
#[derive(Clone, Copy)]
pub struct CalledCounts {
    pub answer: Result<Reply, Refusal>,
    pub counts: Counts,
}

// An answer with the counts after it.
pub fn with_counts(answer: Result<Reply, Refusal>, held: usize, summarised: usize) -> CalledCounts
    ensures { result ≡ with_counts answer held summarised }
{
    CalledCounts {
        answer,
        counts: Counts { held, summarised },
    }
}

// The checks 1, 10, 2, 3, 4 of a feed or a removal.
pub fn call_refusal(
    words: Vocabulary,
    roster: &[u8],
    triples: &[u32],
    summary: &[u32],
    weights: &[u32],
    map: &[u32],
    work: &[u32],
    t: Triple,
) -> Result<(), Refusal>
    ensures { CallVerdict words roster.now
        triples.now summary.now weights.now map.now work.now t result }
{
    let n = roster.len();
    if lengths_wrong(n, triples.len(), summary.len(), weights.len(), map.len()) {
        return Err(Refusal::Length);
    }
    if work_wrong(n, work.len()) {
        return Err(Refusal::Length);
    }
    if words_wrong(words, n) {
        return Err(Refusal::Words);
    }
    if roster_wrong(words, roster) {
        return Err(Refusal::Roster);
    }
    if triple_wrong(words, t, n) {
        return Err(Refusal::Code);
    }
    if !covers_triple(words, roster, t) {
        return Err(Refusal::Cover);
    }
    Ok(())
}
