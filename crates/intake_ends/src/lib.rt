// Whether the other triples of a list keep the ends of one that leaves. A no costs time and nothing else, so the contracts of the searches
// say what a yes means.
#![tactic(auto)]

ghost use Rattle.std.specs.Prelude.{true, ◌≡◌, ◌+◌, ◌*◌, ◌<◌, ◌≤◌, Bool, length};
ghost use Rattle.model.specs.declared.Triple.{Triple};
ghost use Rattle.theory.specs.Tables.{Below};
ghost use Rattle.lists.specs.Flat.{at};
ghost use Rattle.intake_ends.specs.Ends.{at_side, at_end, OtherAt, Elsewhere, EndKept, EndsKept};

use lists::triple_at;
use model::{Side, Triple, Vocabulary};
use roster_checks::{links_at, side_end};

// A test of a triple.
trait Test: Copy {
    ghost holds: { Self → Triple → Bool };

    fn passes(self, u: Triple) -> bool
        ensures { result ≡ holds self u };
}

// Triples with this one's property and, at that side, its end.
#[derive(Clone, Copy)]
struct AtSide {
    side: Side,
    triple: Triple,
}

impl Test for AtSide {
    ghost holds = { λ s u. at_side s.side s.triple u };

    #[tactic(auto, unfolding(crate::specs::Ends::at_side))]
    fn passes(self, u: Triple) -> bool {
        u.property == self.triple.property
            && side_end(self.side, u) == side_end(self.side, self.triple)
    }
}

// Triples with this code as an end.
#[derive(Clone, Copy)]
struct AtEnd(u32);

impl Test for AtEnd {
    ghost holds = { λ s u. at_end s.0 u };

    #[tactic(auto, unfolding(crate::specs::Ends::at_end))]
    fn passes(self, u: Triple) -> bool {
        u.subject == self.0 || u.object == self.0
    }
}

// Whether place k is another than i, and the triple there passes the test.
fn other_at<T: Test>(list: &[u32], k: usize, i: usize, test: T) -> bool
    requires { 3 * k + 2 < length list.now }
    ensures { result ≡ true → OtherAt (at list.now) k i (T.holds test) }
{
    k != i && test.passes(triple_at(list, k))
}

// The same of a place that may be `count` or more.
fn other_within<T: Test>(list: &[u32], count: usize, k: usize, i: usize, test: T) -> bool
    requires { 3 * count ≤ length list.now }
    ensures { result ≡ true → Elsewhere (at list.now) count i (T.holds test) }
{
    k < count && other_at(list, k, i, test)
}

// Whether the triple before or behind place i passes the test.
fn other_beside<T: Test>(list: &[u32], count: usize, i: usize, test: T) -> bool
    requires { (i < count) × (3 * count ≤ length list.now) }
    ensures { result ≡ true → Elsewhere (at list.now) count i (T.holds test) }
{
    other_within(list, count, i + 1, i, test) || 0 < i && other_within(list, count, i - 1, i, test)
}

// Whether another of the first `count` triples than the one at place i passes the test.
fn other_elsewhere<T: Test>(list: &[u32], count: usize, i: usize, test: T) -> bool
    requires { 3 * count ≤ length list.now }
    ensures { result ≡ true → Elsewhere (at list.now) count i (T.holds test) }
{
    for k in 0..count {
        if other_at(list, k, i, test) {
            return true;
        }
    }
    false
}

// Whether the others keep t's end at a side: where it is an unmarked end of a data triple, at that side of the property; else as a node.
// In a rising list triples with one subject and one property stand side by side.
fn end_kept(
    words: Vocabulary,
    roster: &[u8],
    list: &[u32],
    count: usize,
    i: usize,
    side: Side,
    t: Triple,
) -> bool
    requires { Below (length roster.now) t × (i < count) × (3 * count ≤ length list.now) }
    ensures { result ≡ true → EndKept words roster.now (at list.now) count i t side }
{
    if !links_at(words, roster, side, t) {
        let node = AtEnd(side_end(side, t));
        return other_beside(list, count, i, node) || other_elsewhere(list, count, i, node);
    }
    let alike = AtSide { side, triple: t };
    match side {
        Side::Source => other_beside(list, count, i, alike),
        Side::Target => other_elsewhere(list, count, i, alike),
    }
}

// Whether the others keep both ends of t, the triple at place i.
pub fn ends_kept(
    words: Vocabulary,
    roster: &[u8],
    list: &[u32],
    count: usize,
    i: usize,
    t: Triple,
) -> bool
    requires { Below (length roster.now) t × (i < count) × (3 * count ≤ length list.now) }
    ensures { result ≡ true → EndsKept words roster.now (at list.now) count i t }
{
    end_kept(words, roster, list, count, i, Side::Source, t)
        && end_kept(words, roster, list, count, i, Side::Target, t)
}
