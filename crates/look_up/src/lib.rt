// Look up: whether a triple is in a list, which may be in any order, and how many of its triples come before it.
#![tactic(auto)]

ghost use Rattle.std.specs.Prelude.{◌≡◌};
ghost use Rattle.model.specs.Triples.{triples, holds, place};
ghost use Rattle.model.specs.Outcomes.{answer, seen, found};
ghost use Rattle.model.specs.Calls.{look_up_outcome};

use checks::length_wrong;
use lists::triple_at;
use model::{Found, Refusal, Triple};

// What is seen of t in the whole list. A triple that stands after t in the list may come before it in the order, so the pass never ends early.
// The loop has no branch of its own, but the compiler branches where a triple has the subject that is looked up.
#[tactic(auto, unfolding(model::specs::Outcomes::seen))]
fn seen_in(list: &[u32], t: Triple) -> Found
    ensures { seen result ≡ answer (holds t (triples list.now)) (place t (triples list.now)) }
{
    let mut found = false;
    let mut place = 0;
    for i in 0..list.len() / 3 {
        let u = triple_at(list, i);
        let here = t == u;
        let early = u < t;
        found |= here;
        place += early as usize;
    }
    if found {
        Found::Yes(place)
    } else {
        Found::No(place)
    }
}

#[tactic(auto, unfolding(model::specs::Calls::look_up_outcome, model::specs::Outcomes::decided, model::specs::Outcomes::outcome_by, model::specs::Outcomes::refusal_number))]
pub fn look_up(list: &[u32], t: Triple) -> Result<Found, Refusal>
    ensures { found result ≡ look_up_outcome list.now t }
{
    if length_wrong(list.len()) {
        return Err(Refusal::Length);
    }
    Ok(seen_in(list, t))
}
