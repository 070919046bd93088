// The weak and the strong summary, through cliques. Both clique lists stand in one list, the source cliques first.
#![tactic(auto)]

use naive_checks::{Site, mark};
use naive_cliques::{Side, cliques_at, is_data, lower};
use naive_lists::{ABSENT, Refusal, Triple, add, entry, set_entry, sort, triples_of};

// The source and the target clique of a data node.
#[derive(Clone, Copy, PartialEq, Eq)]
struct NodeCliques {
    source: Option<u32>,
    target: Option<u32>,
}

impl NodeCliques {
    const NONE: Self = Self {
        source: None,
        target: None,
    };
}

// When two data nodes are equivalent in one step.
#[derive(Clone, Copy, PartialEq, Eq)]
pub enum Equivalence {
    Weak,
    Strong,
}

impl Equivalence {
    // Strong: both cliques are the same, none counting as a value. Weak: the source or the target clique is the same and not empty, or both
    // nodes have no clique at all.
    fn relates(self, a: NodeCliques, b: NodeCliques) -> bool {
        match self {
            Self::Strong => a == b,
            Self::Weak => {
                a.source.is_some() && a.source == b.source
                    || a.target.is_some() && a.target == b.target
                    || a == NodeCliques::NONE && b == NodeCliques::NONE
            }
        }
    }
}

// A site with the cliques of its properties.
#[derive(Clone, Copy)]
struct Grouping<'a> {
    site: Site<'a>,
    equivalence: Equivalence,
    sources: &'a [u32],
    targets: &'a [u32],
}

impl Grouping<'_> {
    // The clique of a property at a side.
    fn clique_at(self, side: Side, property: u32) -> u32 {
        match side {
            Side::Source => entry(self.sources, property),
            Side::Target => entry(self.targets, property),
        }
    }

    // The clique of a data node: that of the property of any data triple that it stands in at that side.
    fn clique_of(self, side: Side, node: u32) -> Option<u32> {
        triples_of(self.site.table)
            .find(|t| side.end(*t) == node && is_data(self.site.words, *t))
            .map(|t| self.clique_at(side, t.property))
    }

    fn cliques_of(self, node: u32) -> NodeCliques {
        NodeCliques {
            source: self.clique_of(Side::Source, node),
            target: self.clique_of(Side::Target, node),
        }
    }

    // Lowers a data node a by a data node b if they are alike; whether it was lowered.
    fn join_pair(self, map: &mut [u32], a: u32, b: u32) -> bool {
        mark(self.site.roster, a) == 0
            && mark(self.site.roster, b) == 0
            && entry(map, b) < entry(map, a)
            && self
                .equivalence
                .relates(self.cliques_of(a), self.cliques_of(b))
            && lower(map, a, b)
    }

    // Lowers the node a by each node that is alike.
    fn join(self, map: &mut [u32], a: u32) -> bool {
        let mut changed = false;
        for t in triples_of(self.site.table) {
            for b in [t.subject, t.object] {
                changed |= self.join_pair(map, a, b);
            }
        }
        changed
    }

    fn join_all(self, map: &mut [u32]) -> bool {
        let mut changed = false;
        for t in triples_of(self.site.table) {
            for a in [t.subject, t.object] {
                changed |= self.join(map, a);
            }
        }
        changed
    }

    // The smallest code of each class. A chain has no more steps than there are nodes, so as many rounds are enough; strong classes have no
    // chains.
    fn represent(self, map: &mut [u32]) {
        start(self.site.table, map);
        for _ in 0..self.site.table.len() / 3 * 2 {
            if !self.join_all(map) {
                return;
            }
        }
    }
}

// Each node represents itself at first, and a code that is no node is absent.
fn start(table: &[u32], map: &mut [u32]) {
    map.fill(ABSENT);
    for t in triples_of(table) {
        set_entry(map, t.subject, t.subject);
        set_entry(map, t.object, t.object);
    }
}

// The representative of each node. The work list is left with the cliques of both sides.
fn represent(site: Site, equivalence: Equivalence, map: &mut [u32], work: &mut [u32]) {
    let (sources, targets) = work.split_at_mut(work.len() / 2);
    cliques_at(site, Side::Source, sources);
    cliques_at(site, Side::Target, targets);
    let grouping = Grouping {
        site,
        equivalence,
        sources,
        targets,
    };
    grouping.represent(map);
}

// A triple with subject and object replaced by their representatives.
pub fn image(map: &[u32], t: Triple) -> Triple {
    Triple::new(entry(map, t.subject), t.property, entry(map, t.object))
}

// The images of the triples, each once.
fn images(table: &[u32], map: &[u32], res: &mut [u32]) -> Result<usize, Refusal> {
    triples_of(table).try_fold(0, |count, t| add(res, count, image(map, t)))
}

// The lengths of map and work list are N and 2 * N.
fn lengths_wrong(n: usize, map: usize, work: usize) -> bool {
    map != n || work / 2 != n || work % 2 != 0
}

// The weak summary or the strong one. A result that does not fit is cleared with its map, one that fits is sorted.
pub fn summarise(
    site: Site,
    equivalence: Equivalence,
    res: &mut [u32],
    map: &mut [u32],
    work: &mut [u32],
) -> Result<usize, Refusal> {
    site.check(lengths_wrong(site.roster.len(), map.len(), work.len()))?;
    represent(site, equivalence, map, work);
    work.fill(0);
    res.fill(0);
    let answer = images(site.table, map, res);
    match answer {
        Ok(count) => sort(res, count),
        Err(_) => {
            res.fill(0);
            map.fill(0);
        }
    }
    answer
}
