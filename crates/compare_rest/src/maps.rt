// What the second map must hold.
use random_sites::random::get;

pub const ABSENT: u32 = 4294967295;

fn entry(map: &[u32], code: u32) -> u32 {
    map.get(code as usize).copied().unwrap_or(ABSENT)
}

// Whether a code is subject or object of a triple.
fn is_node(table: &[u32], code: u32) -> bool {
    table
        .chunks_exact(3)
        .any(|t| get(t, 0) == code || get(t, 2) == code)
}

// Fills a map as a summary at rest has it: each of its nodes itself, and absent for all other codes.
pub fn own_map(summary: &[u32], map: &mut [u32]) {
    let mut code = 0u32;
    for entry in map {
        *entry = if is_node(summary, code) { code } else { ABSENT };
        code = code.wrapping_add(1);
    }
}

// Whether the second map leads on from the first to the same representatives.
pub fn carries(first: &[u32], second: &[u32]) -> bool {
    first.iter().all(|code| entry(second, *code) == *code)
}
