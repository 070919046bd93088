// The plain intake. After an accepted opening and every call its lists are H, the set of triples that were new and not removed since, in
// rising order, its summary, the weights of the summary's triples, and its map.
#![tactic(auto)]

ghost use Rattle.std.specs.Prelude.{◌*◌, ◌≤◌, length};

use naive_checks::{Site, covered, refuse_if, roster_wrong, size_wrong, triple_wrong, words_wrong};
use naive_cliques::{Side, links};
use naive_lists::{ABSENT, Refusal, Triple, Words, holds, place, put, sort, triple_at, triples_of};
use naive_summary::{Equivalence, image, summarise};

// The lists that are lent to every call.
#[derive(Drop)]
pub struct Lists<'a> {
    pub triples: &'a mut [u32],
    pub summary: &'a mut [u32],
    pub weights: &'a mut [u32],
    pub map: &'a mut [u32],
}

// How many triples H and its summary have.
#[derive(Clone, Copy, PartialEq, Eq)]
pub struct Counts {
    pub held: usize,
    pub summarised: usize,
}

// What an accepted call says of its triple, and how many triples of H, as it was before, come before it.
#[derive(Clone, Copy, PartialEq, Eq)]
pub enum Reply {
    New(usize),
    NotNew(usize),
    Removed(usize),
}

impl Lists<'_> {
    // N as for any call, a map of N numbers, equal slots and not too many, as many weights as slots.
    fn lengths_wrong(&self, n: usize) -> bool {
        let slots = self.triples.len() / 3;
        size_wrong(n)
            || self.map.len() != n
            || self.summary.len() / 3 != slots
            || 1048576 < slots
            || self.weights.len() != slots
    }

    // Both triple lists and the weights become zero, the map absent, and both counts are zero.
    pub fn open(self, words: Words, roster: &[u8]) -> Result<Counts, Refusal> {
        let n = roster.len();
        refuse_if(self.lengths_wrong(n), Refusal::Length)?;
        refuse_if(words_wrong(words, n), Refusal::Words)?;
        refuse_if(roster_wrong(words, roster), Refusal::Roster)?;
        self.triples.fill(0);
        self.summary.fill(0);
        self.weights.fill(0);
        self.map.fill(ABSENT);
        Ok(Counts {
            held: 0,
            summarised: 0,
        })
    }

    // The checks 1, 10, 2, 3, 4 of a call. The work list has 2 * N numbers.
    fn check(&self, words: Words, roster: &[u8], work: usize, t: Triple) -> Result<(), Refusal> {
        let n = roster.len();
        refuse_if(
            self.lengths_wrong(n) || work / 2 != n || work % 2 != 0,
            Refusal::Length,
        )?;
        refuse_if(words_wrong(words, n), Refusal::Words)?;
        refuse_if(roster_wrong(words, roster), Refusal::Roster)?;
        refuse_if(triple_wrong(words, t, n), Refusal::Code)?;
        refuse_if(!covered(words, roster, t), Refusal::Cover)
    }

    // Feeds a triple to an intake with those two counts. A refused call leaves all as it is.
    pub fn feed(
        self,
        counts: &mut Counts,
        words: Words,
        roster: &[u8],
        work: &mut [u32],
        t: Triple,
    ) -> Result<Reply, Refusal> {
        self.check(words, roster, work.len(), t)?;
        let held = counts.held;
        let before = place(self.triples, held, t);
        if holds(self.triples, held, t) {
            work.fill(0);
            return Ok(Reply::NotNew(before));
        }
        if self.triples.len() / 3 <= held {
            return Err(Refusal::Full);
        }
        put(self.triples, held, t);
        *counts = self.renew(held + 1, words, roster, work);
        Ok(Reply::New(before))
    }

    // Removes a triple from an intake with those two counts. A refused call leaves all as it is. No triple is in H where nothing is held, nor
    // where more is held than there are slots.
    pub fn remove(
        self,
        counts: &mut Counts,
        words: Words,
        roster: &[u8],
        work: &mut [u32],
        t: Triple,
    ) -> Result<Reply, Refusal> {
        self.check(words, roster, work.len(), t)?;
        let held = counts.held;
        let slots = self.triples.len() / 3;
        if held == 0 || slots < held || !holds(self.triples, held, t) {
            return Err(Refusal::Missing);
        }
        let before = place(self.triples, held, t);
        let last = triple_at(self.triples, held - 1);
        put(self.triples, before, last);
        put(self.triples, held - 1, Triple::new(0, 0, 0));
        *counts = self.renew(held - 1, words, roster, work);
        Ok(Reply::Removed(before))
    }

    // Sorts the first triples, and makes their summary, its map and the weight of each line anew, zero behind them.
    fn renew(self, held: usize, words: Words, roster: &[u8], work: &mut [u32]) -> Counts
        requires { 3 * held ≤ length self.triples.now }
    {
        let Self {
            triples,
            summary,
            weights,
            map,
        } = self;
        sort(triples, held);
        let table = &triples[..3 * held];
        let site = Site {
            words,
            table,
            roster,
        };
        let summarised = summarise(site, Equivalence::Weak, summary, map, work).unwrap_or(0);
        weights.fill(0);
        for (slot, line) in weights.iter_mut().zip(triples_of(summary).take(summarised)) {
            *slot = weight(table, map, line);
        }
        Counts { held, summarised }
    }
}

// How many triples of the table have that line of the summary as their image.
fn weight(table: &[u32], map: &[u32], line: Triple) -> u32 {
    let count = triples_of(table).filter(|t| image(map, *t) == line).count();
    u32::try_from(count).unwrap_or(u32::MAX)
}

// Whether u is another triple than t and keeps t's end at a side. Where that is an unmarked end of a data triple, u has the property of t
// and the same end at that side; else u has it at either side.
fn keeps_end(words: Words, roster: &[u8], side: Side, t: Triple, u: Triple) -> bool {
    let end = side.end(t);
    if links(words, roster, side, t) {
        u != t && u.property == t.property && side.end(u) == end
    } else {
        u != t && (u.subject == end || u.object == end)
    }
}

// Whether both ends of a triple are kept by others of the first `held` triples. Then its removal changes no class. The plain intake makes
// no use of it: the programs count by it which removals they made.
pub fn ends_kept(words: Words, roster: &[u8], triples: &[u32], held: usize, t: Triple) -> bool {
    let kept = |side| (0..held).any(|i| keeps_end(words, roster, side, t, triple_at(triples, i)));
    kept(Side::Source) && kept(Side::Target)
}
