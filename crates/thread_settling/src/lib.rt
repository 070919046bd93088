// The nodes of a thread settled by their target cliques: the first with a clique leaves its stamp there.
#![tactic(auto)]

ghost use Rattle.std.specs.Prelude.{◌≡◌, List, ℕ, ◌+◌, ◌<◌, length};
ghost use Rattle.model.specs.Codes.{absent};
ghost use Rattle.thread_settling.specs.Threads.{Groups, Settled};
ghost use Rattle.thread_settling.specs.Calls.{stamped, Settleable, NodeSettled, Walkable, SomeWalkable, Settling, SomeSettling};

use lists::{Code, narrow, wide};
use model::Vocabulary;
use node_cliques::is_label;

// Whether a stamp was left in the thread of a: its node has this label.
#[tactic(auto, unfolding(crate::specs::Calls::stamped))]
fn is_stamped(work: &[u32], stamp: u32, a: u32) -> bool
    requires { (stamp ≡ absent → ⊥) → stamp < length work.now }
    ensures { result ≡ stamped work.now stamp a }
{
    !Code(stamp).is_absent() && work[wide(stamp)] == a
}

// The node i of the thread of a gets its representative. The result is the next node of the thread.
fn settle(map: &mut [u32], work: &mut [u32], n: usize, a: u32, i: usize) -> u32
    requires { Settleable map.old work.old n i }
    ensures { NodeSettled map.old work.old map.new work.new n a i result }
{
    let next = map[i];
    let b = n + wide(work[n + i]);
    let stamp = work[b];
    if is_stamped(work, stamp, a) {
        map[i] = stamp;
        return next;
    }
    map[i] = narrow(i);
    work[b] = narrow(i);
    next
}

// Settles the thread of a.
fn walk(map: &mut [u32], work: &mut [u32], n: usize, a: u32)
    requires { SomeWalkable map.old work.old n a }
    ensures { (g : Groups) (before : List ℕ) → Walkable g before map.old work.old n a → Settled g (a + 1) before map.new work.new }
{
    let mut c = work[wide(a)];
    while !Code(c).is_absent() {
        c = settle(map, work, n, a, wide(c));
    }
}

// Settles the thread of a code, if it is a label.
fn settle_label(words: Vocabulary, roster: &[u8], map: &mut [u32], work: &mut [u32], a: usize)
    requires { SomeSettling words roster.now map.old work.old a × (a < length roster.now) }
    ensures { (g : Groups) (before : List ℕ) → Settling words g before roster.now map.old work.old a → Settling words g before roster.now map.new work.new (a + 1) }
{
    if is_label(words, roster, a) {
        walk(map, work, roster.len(), narrow(a));
    }
}

// Settles all threads.
pub fn settle_labels(words: Vocabulary, roster: &[u8], map: &mut [u32], work: &mut [u32])
    requires { SomeSettling words roster.now map.old work.old 0 }
    ensures { (g : Groups) (before : List ℕ) → Settling words g before roster.now map.old work.old 0 → Settling words g before roster.now map.new work.new (length roster.now) }
{
    for a in 0..roster.len() {
        settle_label(words, roster, map, work, a);
    }
}
