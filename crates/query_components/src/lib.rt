// The parts of a query that share no variable without a node. What is promised of them is in specs/Parts.
#![tactic(auto)]

ghost use Rattle.std.specs.Prelude.{◌≡◌, true, ℕ, ◌<◌, ◌≤◌, get_or};
ghost use Rattle.model.specs.Codes.{absent};
ghost use Rattle.query.specs.Ask.{pattern_at};
ghost use Rattle.query.specs.declared.End.TheVariants.{Var};
ghost use Rattle.query_components.specs.Parts.{Holds, Apart, PartEnd};

use lists::Code;
use query::{End, Pattern, Query};

// Whether two ends are one variable that has no node.
fn same_variable(e: End, f: End, bindings: [u32; 8]) -> bool
    ensures { (v : ℕ) → v < 8 → get_or bindings v 0 ≡ absent → e ≡ Var v → f ≡ Var v → result ≡ true }
{
    match (e, f) {
        (End::Var(v), End::Var(w)) => v == w && Code(bindings[(v % 8) as usize]).is_absent(),
        _ => false,
    }
}

// Whether two patterns share a variable that has no node.
fn share(p: Pattern, o: Pattern, bindings: [u32; 8]) -> bool
    ensures { (v : ℕ) → v < 8 → get_or bindings v 0 ≡ absent → Holds v p → Holds v o → result ≡ true }
{
    same_variable(p.subject, o.subject, bindings)
        || same_variable(p.subject, o.object, bindings)
        || same_variable(p.object, o.subject, bindings)
        || same_variable(p.object, o.object, bindings)
}

// Whether a pattern from the k-th to before the z-th shares a variable that has no node with p.
fn touched(q: Query, k: usize, z: usize, p: Pattern, bindings: [u32; 8]) -> bool
    requires { z ≤ 8 }
    ensures { (i v : ℕ) → v < 8 → get_or bindings v 0 ≡ absent → k ≤ i → i < z → Holds v (pattern_at q i) → Holds v p → result ≡ true }
{
    for i in k..z {
        if share(q.patterns[i], p, bindings) {
            return true;
        }
    }
    false
}

// Whether no variable without a node is in a pattern from the k-th to before the z-th and in one from there on.
fn apart(q: Query, k: usize, z: usize, bindings: [u32; 8]) -> bool
    requires { (z ≤ 8) × (q.count ≤ 8) }
    ensures { result ≡ true → Apart bindings q k z }
{
    for j in z..q.count as usize {
        if touched(q, k, z, q.patterns[j], bindings) {
            return false;
        }
    }
    true
}

// Where the part that begins at pattern j ends, of the patterns from k on.
pub fn part_end(q: Query, k: usize, j: usize, bindings: [u32; 8]) -> usize
    requires { (j < q.count) × (q.count ≤ 8) }
    ensures { PartEnd bindings q k j result }
{
    let count = q.count as usize;
    for z in j + 1..count {
        if apart(q, k, z, bindings) {
            return z;
        }
    }
    count
}
