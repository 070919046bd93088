// The weights of a summary, how many triples have each of its triples as their image; and summary, weights and map made anew.
#![tactic(auto)]

ghost use Rattle.std.specs.Prelude.{◌≡◌, ◌+◌, ◌*◌, ◌%◌, ◌^◌, ◌<◌, ◌≤◌, length, slice_index, slice_set};
ghost use Rattle.model.specs.Lists.{zeros, padded};
ghost use Rattle.model.specs.Summary.{weights_of};
ghost use Rattle.lists.specs.Flat.{at, Place};
ghost use Rattle.builder.specs.Builder.{first};
ghost use Rattle.intake_weighing.specs.Weighing.{Weighable, Renewable, Renewed};

use intake_insertion::stands_at;
use lists::{clear, lower_bound, narrow, triple_at, wide};
use model::{Triple, Vocabulary};
use summarise::{condense, image};

// One more at a place. A list altered by hand may hold the highest number, which becomes 0.
pub fn increment(list: &mut [u32], j: usize)
    requires { j < length list.old }
    ensures { list.new ≡ slice_set list.old j ((slice_index list.old j + 1) % 2 ^ 32) }
{
    list[j] = std::num::wrapping_add_u32(list[j], 1);
}

// The place of a triple in a rising list: `near` if it stands there, else by bisection.
fn place_near(list: &[u32], count: usize, near: usize, t: Triple) -> usize
    requires { 3 * count ≤ length list.now }
    ensures { Place (at list.now) 0 count t result }
{
    if stands_at(list, count, near, t) {
        return near;
    }
    lower_bound(list, 0, count, t)
}

// The weights of the first k triples of a summary: of each, how many of the first `count` triples have it as their image.
// The work list keeps for each property the place of its last image, where the next one often stands too; it is zero afterwards.
fn weigh(
    triples: &[u32],
    count: usize,
    map: &[u32],
    summary: &[u32],
    k: usize,
    weights: &mut [u32],
    work: &mut [u32],
)
    requires { Weighable triples.now count map.now summary.now k (length weights.old) (length work.old) }
    ensures { (weights.new ≡ padded (length weights.old)
        (weights_of map.now (first triples.now count) (first summary.now k)))
        × (work.new ≡ zeros (length work.old)) }
{
    clear(weights, 0, weights.len());
    for i in 0..count {
        let t = triple_at(triples, i);
        let p = wide(t.property);
        let j = place_near(summary, k, wide(work[p]), image(map, t));
        work[p] = narrow(j);
        weights[j] += 1;
    }
    clear(work, 0, work.len());
}

// Makes the summary of the first `count` triples, its weights and the map anew, and answers the summary's size.
pub fn renew(
    words: Vocabulary,
    triples: &[u32],
    count: usize,
    roster: &[u8],
    summary: &mut [u32],
    weights: &mut [u32],
    map: &mut [u32],
    work: &mut [u32],
) -> usize
    requires { Renewable words triples.now count roster.now summary.old weights.old map.old work.old }
    ensures { Renewed words roster.now (first triples.now count)
        summary.old weights.old work.old result
        summary.new weights.new map.new work.new }
{
    let Ok(k) = condense(words, triples, count, roster, summary, map, work) else {
        return 0; // cannot be: the summary has no more triples than there are slots
    };
    weigh(triples, count, map, summary, k, weights, work);
    k
}
