// A triple searched and put between the triples of a list, its image looked for, and triples with wrong codes or roles.
#![tactic(auto)]

ghost use Rattle.std.specs.Prelude.{◌≡◌, ◌+◌, ◌*◌, ◌<◌, ◌≤◌, length};
ghost use Rattle.model.specs.Lists.{any};
ghost use Rattle.theory.specs.Tables.{Below};
ghost use Rattle.builder.specs.Builder.{first};
ghost use Rattle.intake_insertion.specs.Insertion.{Inserted};
ghost use Rattle.intake_insertion.specs.Places.{StandsAt, ImageFound, bad};

use checks::triple_wrong;
use lists::{Code, lower_bound, put, triple_at, wide};
use model::{Triple, Vocabulary};
use roster_checks::covers_triple;

// Puts t at place i of the first `count` triples; those from there on move up by one.
pub fn insert_at(list: &mut [u32], count: usize, i: usize, t: Triple)
    requires { (i ≤ count) × (3 * count + 2 < length list.old) }
    ensures { Inserted list.old list.new count i t }
{
    list.copy_within(3 * i..3 * count, 3 * i + 3);
    put(list, i, t);
}

// Whether t stands at place i, below `count`.
pub fn stands_at(list: &[u32], count: usize, i: usize, t: Triple) -> bool
    requires { 3 * count ≤ length list.now }
    ensures { StandsAt list.now count i t result }
{
    i < count && t == triple_at(list, i)
}

// The place of t's image in the summary; None where an end is no node or the image is not there. Where there is one, taking t in changes
// neither the map nor the summary; of taking t out it says nothing.
pub fn image_place(summary: &[u32], summarised: usize, map: &[u32], t: Triple) -> Option<usize>
    requires { Below (length map.now) t }
    ensures { ImageFound summary.now summarised map.now t result }
{
    if summary.len() / 3 < summarised {
        return None;
    }
    let subject = map[wide(t.subject)];
    if Code(subject).is_absent() {
        return None;
    }
    let object = map[wide(t.object)];
    if Code(object).is_absent() {
        return None;
    }
    let image = Triple {
        subject,
        object,
        ..t
    };
    let i = lower_bound(summary, 0, summarised, image);
    if stands_at(summary, summarised, i, image) {
        return Some(i);
    }
    None
}

// Whether one of the first `count` triples has a wrong code or is not covered.
pub fn held_wrong(words: Vocabulary, list: &[u32], count: usize, roster: &[u8]) -> bool
    requires { 3 * count ≤ length list.now }
    ensures { result ≡ any (bad words roster.now) (first list.now count) }
{
    for i in 0..count {
        let t = triple_at(list, i);
        if triple_wrong(words, t, roster.len()) || !covers_triple(words, roster, t) {
            return true;
        }
    }
    false
}
