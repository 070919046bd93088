// Source and target cliques.
#![tactic(auto)]

use naive_checks::{Site, mark};
use naive_lists::{ABSENT, Refusal, Triple, Words, entry, set_entry, triples_of};

// The side of a property at which a node stands: as subject at the source side, as object at the target side.
#[derive(Clone, Copy, PartialEq, Eq)]
pub enum Side {
    Source,
    Target,
}

impl Side {
    // The node of a triple at this side.
    pub fn end(self, t: Triple) -> u32 {
        match self {
            Self::Source => t.subject,
            Self::Target => t.object,
        }
    }
}

// A data triple has a property that is none of the five.
pub fn is_data(words: Words, t: Triple) -> bool {
    !words.has(t.property)
}

// Whether t is a data triple with a data node, an unmarked one, at the end of that side.
pub fn links(words: Words, roster: &[u8], side: Side, t: Triple) -> bool {
    mark(roster, side.end(t)) == 0 && is_data(words, t)
}

// The property of such a triple is in its own clique at first.
fn start(site: Site, side: Side, list: &mut [u32]) {
    list.fill(ABSENT);
    for t in triples_of(site.table) {
        if links(site.words, site.roster, side, t) {
            set_entry(list, t.property, t.property);
        }
    }
}

// Whether two triples share a data node at that side.
fn share(site: Site, side: Side, t: Triple, u: Triple) -> bool {
    side.end(t) == side.end(u)
        && links(site.words, site.roster, side, t)
        && links(site.words, site.roster, side, u)
}

// Gives a the entry of b if that is smaller; whether it was.
pub fn lower(list: &mut [u32], a: u32, b: u32) -> bool {
    let value = entry(list, b);
    let is_smaller = value < entry(list, a);
    if is_smaller {
        set_entry(list, a, value);
    }
    is_smaller
}

// Lowers each property by each other that it shares a node with; whether any was lowered.
fn join_all(site: Site, side: Side, list: &mut [u32]) -> bool {
    let mut changed = false;
    for t in triples_of(site.table) {
        for u in triples_of(site.table) {
            changed |= share(site, side, t, u) && lower(list, t.property, u.property);
        }
    }
    changed
}

// The cliques of one side. A chain has no more steps than there are triples, so as many rounds are enough.
pub fn cliques_at(site: Site, side: Side, list: &mut [u32]) {
    start(site, side, list);
    for _ in 0..site.table.len() / 3 {
        if !join_all(site, side, list) {
            return;
        }
    }
}

// Each of the two lists has a place for each code.
pub fn cliques(site: Site, sources: &mut [u32], targets: &mut [u32]) -> Result<(), Refusal> {
    let n = site.roster.len();
    site.check(sources.len() != n || targets.len() != n)?;
    cliques_at(site, Side::Source, sources);
    cliques_at(site, Side::Target, targets);
    Ok(())
}
