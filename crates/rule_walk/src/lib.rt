// The rules walked over a list: conclusions are drawn only from the triples as they stood when the walk began.
#![tactic(auto)]

ghost use mathlib.Core.List.{Memᴰ as Mem};
ghost use Rattle.std.specs.Prelude.{◌*◌, ◌≤◌, length};
ghost use Rattle.model.specs.Rules.{rules, numbered};
ghost use Rattle.lists.specs.Flat.{at, RisingPart};
ghost use Rattle.builder.specs.Builder.{first, Built};
ghost use Rattle.rule_premises.specs.Premises.{rule_count, first_of, second_of};
ghost use Rattle.rule_walk.specs.Rounds.{RoundReady, Drawn, DrawnPartners, DrawnRule, Rounded};

use builder::{Builder, Full, offer};
use lists::{lower_bound, triple_at};
use model::{Rule, Triple, Vocabulary};
use rule_premises::{drives, fits, gives, partner_key, rule_at, same_front, second_drives};
use std::ops::Range;

// Draws the conclusion of a rule from two triples of the frozen part, where they fit.
fn draw(
    words: Vocabulary,
    list: &mut [u32],
    b: Builder,
    r: Rule,
    a: Triple,
    p: Triple,
) -> Result<Builder, Full>
    requires { Built list.old b }
    ensures { Drawn words list.old list.new b result (numbered r) a p }
{
    if fits(words, r, a, p) {
        return offer(list, b, gives(words, r, a, p));
    }
    Ok(b)
}

// Draws from a driving premise and a partner.
#[tactic(auto, unfolding(rule_premises::specs::Premises::first_of, rule_premises::specs::Premises::second_of))]
fn draw_pair(
    words: Vocabulary,
    list: &mut [u32],
    b: Builder,
    r: Rule,
    driver: Triple,
    partner: Triple,
) -> Result<Builder, Full>
    requires { Built list.old b }
    ensures { Drawn words list.old list.new b result (numbered r) (first_of (numbered r) driver partner) (second_of (numbered r) driver partner) }
{
    if second_drives(r) {
        return draw(words, list, b, r, partner, driver);
    }
    draw(words, list, b, r, driver, partner)
}

// Draws from a driving premise of the frozen part and each of its partners there: a run of the sorted part.
fn draw_partners(
    words: Vocabulary,
    list: &mut [u32],
    b: Builder,
    r: Rule,
    driver: Triple,
) -> Result<Builder, Full>
    requires { RoundReady words list.old b × Mem (numbered r) rules × Mem driver (first list.old b.base) }
    ensures { DrawnPartners words list.old list.new b result (numbered r) driver }
{
    let key = partner_key(words, r, driver);
    let base = b.base;
    let mut state = b;
    for i in lower_bound(list, 0, base, key)..base {
        let partner = triple_at(list, i);
        if !same_front(partner, key) {
            return Ok(state);
        }
        state = draw_pair(words, list, state, r, driver, partner)?;
    }
    Ok(state)
}

// Draws from a triple of the frozen part, where it is a driving premise, and each of its partners.
fn draw_driver(
    words: Vocabulary,
    list: &mut [u32],
    b: Builder,
    r: Rule,
    driver: Triple,
) -> Result<Builder, Full>
    requires { RoundReady words list.old b × Mem (numbered r) rules × Mem driver (first list.old b.base) }
    ensures { DrawnPartners words list.old list.new b result (numbered r) driver }
{
    if !drives(words, r, driver) {
        return Ok(b);
    }
    draw_partners(words, list, b, r, driver)
}

// Draws with one rule from each driving premise of the frozen part.
fn draw_rule(words: Vocabulary, list: &mut [u32], b: Builder, r: Rule) -> Result<Builder, Full>
    requires { RoundReady words list.old b × Mem (numbered r) rules }
    ensures { DrawnRule words list.old list.new b result (numbered r) }
{
    let base = b.base;
    let mut state = b;
    for i in 0..base {
        let driver = triple_at(list, i);
        state = draw_driver(words, list, state, r, driver)?;
    }
    Ok(state)
}

// One round: all conclusions of the rules at these places of the table from the first `count` triples, which are in rising order.
pub fn round(
    words: Vocabulary,
    list: &mut [u32],
    count: usize,
    places: Range<usize>,
) -> Result<Builder, Full>
    requires { (3 * count ≤ length list.old) × RisingPart (at list.old) 0 count × (places.end ≤ rule_count) }
    ensures { Rounded words list.old list.new count places.start places.end result }
{
    let mut state = Builder::new(count, count);
    for k in places.start..places.end {
        state = draw_rule(words, list, state, rule_at(k))?;
    }
    Ok(state)
}
