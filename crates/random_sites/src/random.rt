// Numbers that look random, each a function of a seed and a place.
ghost use Rattle.std.specs.Prelude.{◌<◌, ◌≤◌};

fn step(x: u64) -> u64
    ensures { result < 2147483648 }
{
    (x % 2147483648 * 1103515245 + 12345) % 2147483648
}

// The high half becomes the low one: the low bits of a step are poor.
fn exchange(x: u64) -> u64
    ensures { result < 2147483648 }
{
    x % 65536 * 32768 + x / 65536 % 32768
}

pub fn mix(seed: u64, place: u64) -> u64
    ensures { result < 2147483648 }
{
    let a = exchange(step(seed % 2147483648 + place % 65536 * 4099));
    let b = exchange(step(a + place % 65536));
    step(b)
}

pub fn remainder(x: u32, m: u32) -> u32
    ensures { result ≤ x }
{
    if m == 0 { 0 } else { x % m }
}

// A number below `bound`, or 0.
pub fn pick(seed: u64, place: u64, bound: u32) -> u32
    ensures { result ≤ 16777215 }
{
    remainder((mix(seed, place) / 128) as u32, bound)
}

// Whether a chance of one in `bound` falls.
pub fn chance(seed: u64, place: u64, bound: u32) -> bool {
    pick(seed, place, bound) == 0
}

// The numbers of `count` triples in a list of that length.
pub fn triples_end(count: usize, length: usize) -> usize
    ensures { result ≤ length }
{
    if count <= length / 3 { 3 * count } else { 0 }
}

// The number at a place, 0 behind the list.
pub fn get(list: &[u32], i: usize) -> u32 {
    list.get(i).copied().unwrap_or(0)
}

// Puts a value at a place, if the list has it.
pub fn set<T: Copy>(list: &mut [T], i: usize, value: T) {
    if let Some(slot) = list.get_mut(i) {
        *slot = value;
    }
}
