// Union-find in a lent list of parents, in which only some entries are the forest. The others are left as they are.
#![tactic(auto)]

ghost use Rattle.union_find.specs.Calls.{Active, RootFound, ActivePair, United, Flattened};

use lists::{narrow, wide};

// The root of a code. On the way each second code gets the parent of its parent (path halving).
pub fn find(parent: &mut [u32], from: usize) -> usize
    requires { Active parent.old from }
    ensures { RootFound parent.old parent.new from result }
{
    let mut x = from;
    let mut p = wide(parent[x]);
    while p < x {
        let g = parent[p];
        parent[x] = g;
        x = wide(g);
        p = wide(parent[x]);
    }
    x
}

// Makes the classes of two codes one: the larger root gets the smaller as its parent.
pub fn union(parent: &mut [u32], a: usize, b: usize)
    requires { ActivePair parent.old a b }
    ensures { United parent.old parent.new a b }
{
    let x = find(parent, a);
    let y = find(parent, b);
    if x < y {
        parent[y] = narrow(x);
    } else if y < x {
        parent[x] = narrow(y);
    }
}

// Makes each code's parent its root. Parents come before their children, so one pass is enough.
pub fn flatten(parent: &mut [u32])
    ensures { Flattened parent.old parent.new }
{
    for i in 0..parent.len() {
        let p = wide(parent[i]);
        if p < i {
            parent[i] = parent[p];
        }
    }
}
