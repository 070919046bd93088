// Rows of bits: for each variable of a query the nodes that it may still have. What they are is defined in specs/Rows.
#![tactic(auto)]

ghost use Rattle.std.specs.Prelude.{◌≡◌, ◌+◌, ◌*◌, ◌%◌, ◌<◌, ◌≤◌, length};
ghost use Rattle.model.specs.Lists.{First};
ghost use Rattle.query_rows.specs.Rows.{bit, in_row, allows, Sized, PutIn, RowSet, RowCopied};

use query::End;

// Bit i; false past the words.
fn has_bit(rows: &[u64], i: usize) -> bool
    ensures { result ≡ bit rows.now i }
{
    let j = i / 64;
    j < rows.len() && (rows[j] >> (i % 64)) % 2 == 1
}

// The bit of node x in row v, of rows with this many bits. Most nodes are below the width and need no division.
fn place(width: usize, v: usize, x: usize) -> usize
    requires { (0 < width) × (width ≤ 65536) × (v < 4294967296) }
    ensures { result ≡ v * width + x % width }
{
    if x < width {
        return v * width + x;
    }
    v * width + x % width
}

// Whether node x is in row v.
fn in_row(rows: &[u64], v: usize, x: u32) -> bool
    requires { Sized rows.now × (v < 4294967296) }
    ensures { result ≡ in_row rows.now v x }
{
    has_bit(rows, place(rows.len() / 13 * 64, v, x as usize))
}

// Whether the domains let an end have the node x.
#[tactic(auto, unfolding(crate::specs::Rows::allows))]
pub fn allowed(rows: &[u64], e: End, x: u32) -> bool
    requires { length rows.now ≤ 13312 }
    ensures { result ≡ allows rows.now e x }
{
    match e {
        End::Var(v) => rows.len() < 13 || in_row(rows, v as usize, x),
        End::Code(_) => true,
    }
}

// Puts node x in row v.
pub fn put_in(rows: &mut [u64], v: usize, x: u32)
    requires { Sized rows.old × (v < 13) }
    ensures { PutIn rows.old rows.new v x }
{
    let i = place(rows.len() / 13 * 64, v, x as usize);
    rows[i / 64] |= 1 << (i % 64);
}

// Sets every word of row v.
pub fn set_row(rows: &mut [u64], v: usize, word: u64)
    requires { Sized rows.old × (v < 13) }
    ensures { RowSet rows.old rows.new v word }
{
    let n = rows.len() / 13;
    let start = v * n;
    rows[start..start + n].fill(word);
}

// Copies row v to row u.
pub fn copy_row(rows: &mut [u64], u: usize, v: usize)
    requires { Sized rows.old × (u < 13) × (v < 13) × (u ≡ v → ⊥) }
    ensures { RowCopied rows.old rows.new u v }
{
    let n = rows.len() / 13;
    let from = v * n;
    rows.copy_within(from..from + n, u * n);
}

// How many bits of row v are set.
pub fn nodes_in(rows: &[u64], v: usize) -> usize
    requires { Sized rows.now × (v < 13) }
    ensures { result ≤ 65536 }
{
    let n = rows.len() / 13;
    let start = v * n;
    let mut nodes = 0;
    for word in &rows[start..start + n] {
        nodes += word.count_ones() as usize;
    }
    nodes
}

// The first node from..to in row v, or `to`.
pub fn next_in_row(rows: &[u64], v: usize, from: usize, to: usize) -> usize
    requires { Sized rows.now × (v < 13) × (from ≤ to) × (to ≤ 65536) }
    ensures { First (in_row rows.now v) from to result }
{
    for x in from..to {
        if in_row(rows, v, x as u32) {
            return x;
        }
    }
    to
}
