// Collects distinct triples into a lent list that may be shorter than what is offered.
// Places 0..base are a frozen rising part, base..sorted a rising part of triples that are not in it, and sorted..filled an unsorted
// tail. When the slots are full, the part behind the base is sorted and its repeats are removed.
#![tactic(auto)]

ghost use Rattle.std.specs.Prelude.{Ok, false, ◌≡◌, ◌+◌, ◌*◌, ◌/◌, ◌<◌, ◌≤◌, length};
ghost use Rattle.builder.specs.Builder.{opening, Built, known, Compacted, Offered, Finished};

use lists::{clear, contains, put};
use model::Triple;
use sorting::sort_distinct;

#[derive(Clone, Copy)]
pub struct Builder {
    pub base: usize,
    pub sorted: usize,
    pub filled: usize,
}

// More distinct triples were offered than there are slots.
#[derive(Clone, Copy, PartialEq, Eq)]
pub struct Full;

impl Builder {
    // The first `base` triples frozen, and a tail behind them up to `filled`.
    pub fn new(base: usize, filled: usize) -> Self
        ensures { result ≡ opening base filled }
    {
        Self {
            base,
            sorted: base,
            filled,
        }
    }
}

// Puts a triple behind the tail.
fn append(list: &mut [u32], b: Builder, t: Triple) -> Builder
    requires { (3 * b.filled + 2 < length list.old) × Built list.old b × (known list.old b t ≡ false) }
    ensures { Offered list.old list.new b (Ok result) t }
{
    put(list, b.filled, t);
    Builder {
        filled: b.filled + 1,
        ..b
    }
}

// Sorts the part behind the base and removes its repeats.
fn compacted(list: &mut [u32], b: Builder) -> Builder
    requires { Built list.old b }
    ensures { Compacted list.old list.new b result }
{
    let end = b.base + sort_distinct(list, b.base, b.filled);
    Builder {
        sorted: end,
        filled: end,
        ..b
    }
}

// Whether a triple is in one of the two rising parts.
fn is_known(list: &[u32], b: Builder, t: Triple) -> bool
    requires { Built list.now b }
    ensures { result ≡ known list.now b t }
{
    contains(list, 0, b.base, t) || contains(list, b.base, b.sorted, t)
}

// Offers a triple where every slot is filled.
fn offer_full(list: &mut [u32], b: Builder, t: Triple) -> Result<Builder, Full>
    requires { Built list.old b × (length list.old / 3 ≤ b.filled) }
    ensures { Offered list.old list.new b result t }
{
    let c = compacted(list, b);
    if is_known(list, c, t) {
        return Ok(c);
    }
    if c.filled < list.len() / 3 {
        return Ok(append(list, c, t));
    }
    Err(Full)
}

// Offers a triple: it is held afterwards, or the slots are too few.
pub fn offer(list: &mut [u32], b: Builder, t: Triple) -> Result<Builder, Full>
    requires { Built list.old b }
    ensures { Offered list.old list.new b result t }
{
    if is_known(list, b, t) {
        return Ok(b);
    }
    if b.filled < list.len() / 3 {
        return Ok(append(list, b, t));
    }
    offer_full(list, b, t)
}

// Sorts what is held, removes repeats and clears the rest of the list; the number of triples.
pub fn finish(list: &mut [u32], filled: usize) -> usize
    requires { 3 * filled ≤ length list.old }
    ensures { Finished list.old list.new filled result }
{
    let count = sort_distinct(list, 0, filled);
    clear(list, 3 * count, list.len());
    count
}
