// Opening an intake, with its two counts by value.
#![tactic(auto)]

ghost use Rattle.std.specs.Prelude.{◌≡◌};
ghost use Rattle.model.specs.Outcomes.{outcome_of};
ghost use Rattle.intake_opening.specs.Opening.{wrong_lengths, at_entry, at_exit, OpenCall, Opens};

use checks::{MOST_TRIPLES, size_wrong, words_wrong};
use lists::{clear, empty};
use model::{Refusal, Vocabulary};
use roster_checks::roster_wrong;

// Whether the lengths of an intake's lists are wrong with n codes.
#[tactic(auto, unfolding(crate::specs::Opening::wrong_lengths))]
pub fn lengths_wrong(n: usize, triples: usize, summary: usize, weights: usize, map: usize) -> bool
    ensures { result ≡ wrong_lengths n triples summary weights map }
{
    size_wrong(n)
        || map != n
        || triples / 3 != summary / 3
        || MOST_TRIPLES < triples / 3
        || weights != triples / 3
}

// Opens an intake: both triple lists and the weights zero, the map absent.
fn open_lists(
    words: Vocabulary,
    roster: &[u8],
    triples: &mut [u32],
    summary: &mut [u32],
    weights: &mut [u32],
    map: &mut [u32],
) -> Result<(), Refusal>
    ensures { OpenCall words roster.now
        triples.old summary.old weights.old map.old result
        triples.new summary.new weights.new map.new }
{
    let n = roster.len();
    if lengths_wrong(n, triples.len(), summary.len(), weights.len(), map.len()) {
        return Err(Refusal::Length);
    }
    if words_wrong(words, n) {
        return Err(Refusal::Words);
    }
    if roster_wrong(words, roster) {
        return Err(Refusal::Roster);
    }
    clear(triples, 0, triples.len());
    clear(summary, 0, summary.len());
    clear(weights, 0, weights.len());
    empty(map);
    Ok(())
}

// The lists that are lent to every call on an intake.
#[derive(Drop)]
pub struct Lists<'a> {
    pub triples: &'a mut [u32],
    pub summary: &'a mut [u32],
    pub weights: &'a mut [u32],
    pub map: &'a mut [u32],
}

// What an intake's record holds: how many triples are held, and how many their summary has.
#[derive(Clone, Copy)]
pub struct Counts {
    pub held: usize,
    pub summarised: usize,
}

// What opening leaves: the answer and the record.
#[derive(Clone, Copy)]
pub struct OpenedCounts {
    pub answer: Result<(), Refusal>,
    pub counts: Counts,
}

// Opens an intake with two counts, over plain lists.
pub fn open_counts(
    held: usize,
    summarised: usize,
    words: Vocabulary,
    roster: &[u8],
    triples: &mut [u32],
    summary: &mut [u32],
    weights: &mut [u32],
    map: &mut [u32],
) -> OpenedCounts
    ensures { Opens words roster.now
        (at_entry triples summary weights map held summarised) (outcome_of result.answer)
        (at_exit triples summary weights map result.counts.held result.counts.summarised) }
{
    match open_lists(words, roster, triples, summary, weights, map) {
        Err(r) => OpenedCounts {
            answer: Err(r),
            counts: Counts { held, summarised },
        },
        Ok(()) => OpenedCounts {
            answer: Ok(()),
            counts: Counts {
                held: 0,
                summarised: 0,
            },
        },
    }
}
