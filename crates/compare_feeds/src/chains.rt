// Random chains of feeds and removals on random sites. The calls come in pairs, two feeds or a removal and the same removal again: an
// accepted one is followed by one that is refused with 9.
use super::feeds::{Source, play, room};
use comparison_report::report::Tally;
use fed_intakes::inputs::Call;
use random_sites::random::{chance, get, mix, pick, set};
use std::io;

// A chain feeds the 30 triples of a table in turn, round and round. Its pool has the places of those that should be held: fed while there
// was a slot, and not removed since.
#[derive(Drop)]
struct Pool {
    places: [u32; 33],
    count: usize,
    // how many the intake has
    slots: usize,
}

impl Pool {
    fn held(&self) -> &[u32] {
        &self.places[..self.count.min(33)]
    }

    fn add(&mut self, place: u32) {
        let count = self.count;
        if count < self.slots.min(33) && !self.held().contains(&place) {
            self.places[count] = place;
            self.count = count + 1;
        }
    }

    // Takes the place that stands at k; the last one goes there.
    fn take(&mut self, k: usize) -> u32 {
        let place = get(&self.places, k);
        self.count = self.count.saturating_sub(1);
        let last = get(&self.places, self.count);
        set(&mut self.places, k, last);
        place
    }
}

// The removal at place i of a triple of the pool, or now and then of any.
fn removal(source: Source<'_>, pool: &mut Pool, i: usize) -> Call {
    let s = mix(mix(source.seed, 100), i as u64);
    let place = if pool.count == 0 || chance(s, 0, 8) {
        pick(s, 2, 30)
    } else {
        pool.take(pick(s, 1, pool.count.min(60) as u32) as usize)
    };
    source.feed(place as usize, i).removal()
}

// The feed at place i.
fn feed(source: Source<'_>, pool: &mut Pool, i: usize) -> Call {
    let place = i % 30;
    pool.add(place as u32);
    source.feed(place, i)
}

// The calls at places i and i + 1: one time in two a removal, if a triple should be held.
fn pair(source: Source<'_>, pool: &mut Pool, i: usize) -> [Call; 2] {
    if pool.count != 0 && chance(mix(source.seed, 101), i as u64, 2) {
        return [removal(source, pool, i); 2];
    }
    [feed(source, pool, i), feed(source, pool, i.min(60) + 1)]
}

fn fill_calls(source: Source<'_>, calls: &mut [Call]) {
    let mut pool = Pool {
        places: [0; 33],
        count: 0,
        slots: room(source.seed) / 3,
    };
    for k in 0..calls.len() / 2 {
        let both = pair(source, &mut pool, 2 * k);
        calls[2 * k..2 * k + 2].copy_from_slice(&both);
    }
}

pub fn all(rt: &impl Print, tally: &mut Tally) -> io::Result<()> {
    for seed in 3000000..3010000 {
        play::<60, _>(rt, tally, seed, fill_calls)?;
    }
    Ok(())
}
