// The schema triples of a table, or its others, put behind the triples of a list.
#![tactic(auto)]

ghost use Rattle.std.specs.Prelude.{◌≡◌, ◌*◌, ◌≤◌, length};
ghost use Rattle.model.specs.Triples.{triples};
ghost use Rattle.lists.specs.Flat.{at, RisingPart};
ghost use Rattle.builder.specs.Builder.{Built};
ghost use Rattle.schema_load.specs.Loading.{chosen, OfferedIf, Added};

use builder::{Builder, Full, offer};
use lists::{Code, triple_at};
use model::{Triple, Vocabulary};

// The part of a table that is wanted: its schema triples, or its others.
#[derive(Clone, Copy, PartialEq, Eq)]
pub enum Share {
    Schema,
    Other,
}

// Whether a triple is in a part.
#[tactic(auto, unfolding(crate::specs::Loading::chosen))]
fn is_chosen(words: Vocabulary, t: Triple, share: Share) -> bool
    ensures { result ≡ chosen words share t }
{
    let is_schema = Code(t.property).is_schema(words);
    match share {
        Share::Schema => is_schema,
        Share::Other => !is_schema,
    }
}

// Offers a triple, where it is chosen.
fn offer_chosen(
    words: Vocabulary,
    list: &mut [u32],
    b: Builder,
    t: Triple,
    share: Share,
) -> Result<Builder, Full>
    requires { Built list.old b }
    ensures { OfferedIf (chosen words share t) list.old list.new b result t }
{
    if is_chosen(words, t, share) {
        return offer(list, b, t);
    }
    Ok(b)
}

// A part of the table behind the first `count` triples, which are in rising order; or the slots are too few.
pub fn load(
    words: Vocabulary,
    table: &[u32],
    list: &mut [u32],
    count: usize,
    share: Share,
) -> Result<Builder, Full>
    requires { (3 * count ≤ length list.old) × RisingPart (at list.old) 0 count }
    ensures { Added words share (triples table.now) list.old list.new count result }
{
    let mut state = Builder::new(count, count);
    for i in 0..table.len() / 3 {
        let t = triple_at(table, i);
        state = offer_chosen(words, list, state, t, share)?;
    }
    Ok(state)
}
