// The checks 2 and 4 of a roster, and the triples that link at a side.
#![tactic(auto)]

ghost use Rattle.std.specs.Prelude.{◌≡◌, false, not, ◌<◌, length, get_or};
ghost use Rattle.model.specs.Codes.{wrong_words};
ghost use Rattle.model.specs.Triples.{triples};
ghost use Rattle.theory.specs.Tables.{Below, AllBelow};
ghost use Rattle.model.specs.Cliques.{end, links};
ghost use Rattle.model.specs.Roster.{is_class, is_property, unmarked, wrong_roster, covers_triple, covers};
ghost use Rattle.roster_checks.specs.Reserved.{marked};

use lists::{Code, triple_at};
use model::{Side, Triple, Vocabulary, Word};
use roster_values::value_wrong;

// Whether a mark says class.
#[tactic(auto, unfolding(model::specs::Roster::is_class))]
fn is_class(mark: u8) -> bool
    ensures { result ≡ is_class mark }
{
    mark == 1 || mark == 3
}

// Whether a mark says property.
#[tactic(auto, unfolding(model::specs::Roster::is_property))]
fn is_property(mark: u8) -> bool
    ensures { result ≡ is_property mark }
{
    mark == 2 || mark == 3
}

fn class_at(roster: &[u8], c: u32) -> bool
    requires { c < length roster.now }
    ensures { result ≡ is_class (get_or roster.now c 0) }
{
    is_class(roster[c as usize])
}

fn property_at(roster: &[u8], c: u32) -> bool
    requires { c < length roster.now }
    ensures { result ≡ is_property (get_or roster.now c 0) }
{
    is_property(roster[c as usize])
}

// Whether the roster marks each role of a triple.
#[tactic(auto, unfolding(model::specs::Roster::covers_triple, model::specs::Roster::class_roles, model::specs::Roster::property_roles, model::specs::Lists::all, model::specs::Codes::kind_number, model::specs::Codes::word_number))]
pub fn covers_triple(words: Vocabulary, roster: &[u8], t: Triple) -> bool
    requires { Below (length roster.now) t }
    ensures { result ≡ covers_triple words roster.now t }
{
    match Code(t.property).kind(words) {
        None => property_at(roster, t.property),
        Some(Word::Instance) => class_at(roster, t.object),
        Some(Word::Subclass) => class_at(roster, t.subject) && class_at(roster, t.object),
        Some(Word::Subproperty) => property_at(roster, t.subject) && property_at(roster, t.object),
        Some(Word::Domain | Word::Range) => class_at(roster, t.object)
            && property_at(roster, t.subject),
    }
}

// Check 4: some triple of the table is not covered.
pub fn uncovered(words: Vocabulary, table: &[u32], roster: &[u8]) -> bool
    requires { AllBelow (length roster.now) (triples table.now) }
    ensures { result ≡ not (covers words roster.now (triples table.now)) }
{
    for i in 0..table.len() / 3 {
        if !covers_triple(words, roster, triple_at(table, i)) {
            return true;
        }
    }
    false
}

// Whether a code is marked.
#[tactic(auto, unfolding(model::specs::Roster::unmarked))]
fn is_marked(roster: &[u8], c: u32) -> bool
    requires { c < length roster.now }
    ensures { result ≡ not (unmarked roster.now c) }
{
    roster[c as usize] != 0
}

// Whether one of the reserved codes is marked.
#[tactic(auto, unfolding(crate::specs::Reserved::marked, model::specs::Lists::any))]
fn reserved_marked(words: Vocabulary, roster: &[u8]) -> bool
    requires { wrong_words words (length roster.now) ≡ false }
    ensures { result ≡ marked words roster.now }
{
    is_marked(roster, words.instance)
        || is_marked(roster, words.subclass)
        || is_marked(roster, words.subproperty)
        || is_marked(roster, words.domain)
        || is_marked(roster, words.range)
}

// Check 2: a value over 3, or a reserved code marked.
#[tactic(auto, unfolding(model::specs::Roster::wrong_roster, roster_values::specs::Bytes::over_three, crate::specs::Reserved::marked))]
pub fn roster_wrong(words: Vocabulary, roster: &[u8]) -> bool
    requires { wrong_words words (length roster.now) ≡ false }
    ensures { result ≡ wrong_roster words roster.now }
{
    value_wrong(roster) || reserved_marked(words, roster)
}

// The end of a triple at a side.
pub fn side_end(side: Side, t: Triple) -> u32
    ensures { result ≡ end side t }
{
    match side {
        Side::Source => t.subject,
        Side::Target => t.object,
    }
}

// Whether a triple is a data triple with an unmarked end at the side.
#[tactic(auto, unfolding(model::specs::Cliques::links, model::specs::Triples::is_data, model::specs::Codes::reserved, model::specs::Roster::unmarked), using(crate::proofs::Sides::end_below))]
pub fn links_at(words: Vocabulary, roster: &[u8], side: Side, t: Triple) -> bool
    requires { Below (length roster.now) t }
    ensures { result ≡ links words roster.now side t }
{
    !Code(t.property).is_reserved(words) && roster[side_end(side, t) as usize] == 0
}
