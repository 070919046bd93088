// The variable to fix while a cycle is left. Which variable is a matter of time only; what is promised is in specs/Fixing.
#![tactic(auto)]

ghost use Rattle.std.specs.Prelude.{◌≤◌, ◌<◌, IfSome};
ghost use Rattle.query_fixing.specs.Fixing.{FreeVariable};

use lists::Code;
use query::{End, Query};

// The variable at an end, if it has no node and is not the one left out.
fn free_variable(e: End, bindings: [u32; 8], out: Option<usize>) -> Option<usize>
    ensures { IfSome result (λ v. v < 8) }
{
    let End::Var(v) = e else {
        return None;
    };
    let w = (v % 8) as usize;
    if Some(w) != out && Code(bindings[w]).is_absent() {
        return Some(w);
    }
    None
}

// Whether a pattern between the variables x and y closes a cycle, where joined variables have one label.
fn closes(labels: [u32; 8], x: usize, y: usize) -> bool
    requires { (x < 8) × (y < 8) }
{
    x != y && labels[x] == labels[y]
}

// The labels with the variables x and y joined.
fn joined(labels: [u32; 8], x: usize, y: usize) -> [u32; 8]
    requires { (x < 8) × (y < 8) }
{
    let mut r = labels;
    for label in &mut r {
        if *label == labels[x] {
            *label = labels[y];
        }
    }
    r
}

// How many patterns close a cycle in each part of the variables, by its label, after one between the variables x and y.
fn counted(closed: [u32; 8], labels: [u32; 8], x: usize, y: usize) -> [u32; 8]
    requires { (x < 8) × (y < 8) }
{
    let from = (labels[x] % 8) as usize;
    let to = (labels[y] % 8) as usize;
    let more = if from == to {
        closes(labels, x, y) as u32
    } else {
        closed[from]
    };
    let mut r = closed;
    r[to] = closed[to].wrapping_add(more);
    r
}

// The patterns from k on that close a cycle of variables without a node, one variable left out: 16 times how many do in the worst
// connected part of the variables, and how many do in all.
fn cycles(q: Query, k: usize, bindings: [u32; 8], out: Option<usize>) -> u32
    requires { q.count ≤ 8 }
{
    let mut labels = [0, 1, 2, 3, 4, 5, 6, 7];
    let mut closed = [0; 8];
    let mut total = 0;
    for j in k..q.count as usize {
        let p = q.patterns[j];
        let subject = free_variable(p.subject, bindings, out);
        let object = free_variable(p.object, bindings, out);
        if let (Some(x), Some(y)) = (subject, object) {
            total += closes(labels, x, y) as u32;
            let parts = counted(closed, labels, x, y);
            closed = parts;
            let after = joined(labels, x, y);
            labels = after;
        }
    }
    let worst = closed.iter().fold(0, |most: u32, n| most.max(*n));
    (worst << 4) | total
}

// The variable to fix, if there is a cycle: the one without which the worst part has fewest cycles, and of those the one without which
// fewest are left in all.
pub fn variable_to_fix(q: Query, k: usize, bindings: [u32; 8]) -> Option<usize>
    requires { q.count ≤ 8 }
    ensures { IfSome result (λ v. FreeVariable bindings v) }
{
    let mut best = None;
    let mut fewest = cycles(q, k, bindings, None);
    for v in 0..8 {
        let node = bindings[v];
        if Code(node).is_absent() {
            let left = cycles(q, k, bindings, Some(v));
            if left < fewest {
                fewest = left;
                best = Some(v);
            }
        }
    }
    best
}
