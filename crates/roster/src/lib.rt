// The own roster of a table.
#![tactic(auto)]

ghost use Rattle.std.specs.Prelude.{◌≡◌, ◌<◌, length};
ghost use Rattle.model.specs.Triples.{triples};
ghost use Rattle.theory.specs.Tables.{Below, AllBelow};
ghost use Rattle.roster.specs.Calls.{OwnRosterCall};
ghost use Rattle.roster.specs.Marks.{with_class, with_property, class_marked, property_marked, roles_marked, table_marked};

use checks::{codes_wrong, length_wrong, size_wrong, words_wrong};
use lists::{Code, triple_at, wide};
use model::{Refusal, Triple, Vocabulary, Word};

// The mark that also says class.
#[tactic(auto, unfolding(crate::specs::Marks::with_class))]
fn with_class(mark: u8) -> u8
    ensures { result ≡ with_class mark }
{
    match mark {
        0 => 1,
        2 => 3,
        _ => mark,
    }
}

// The mark that also says property.
#[tactic(auto, unfolding(crate::specs::Marks::with_property))]
fn with_property(mark: u8) -> u8
    ensures { result ≡ with_property mark }
{
    match mark {
        0 => 2,
        1 => 3,
        _ => mark,
    }
}

fn mark_class(roster: &mut [u8], c: u32)
    requires { c < length roster.old }
    ensures { roster.new ≡ class_marked roster.old c }
{
    let i = wide(c);
    roster[i] = with_class(roster[i]);
}

fn mark_property(roster: &mut [u8], c: u32)
    requires { c < length roster.old }
    ensures { roster.new ≡ property_marked roster.old c }
{
    let i = wide(c);
    roster[i] = with_property(roster[i]);
}

// Marks each role of a triple.
#[tactic(auto, unfolding(crate::specs::Marks::roles_marked, crate::specs::Marks::all_marked, model::specs::Roster::class_roles, model::specs::Roster::property_roles, model::specs::Codes::kind_number, model::specs::Codes::word_number))]
fn mark_roles(words: Vocabulary, roster: &mut [u8], t: Triple)
    requires { Below (length roster.old) t }
    ensures { roster.new ≡ roles_marked words roster.old t }
{
    match Code(t.property).kind(words) {
        None => mark_property(roster, t.property),
        Some(Word::Instance) => mark_class(roster, t.object),
        Some(Word::Subclass) => {
            mark_class(roster, t.object);
            mark_class(roster, t.subject);
        }
        Some(Word::Subproperty) => {
            mark_property(roster, t.object);
            mark_property(roster, t.subject);
        }
        Some(Word::Domain | Word::Range) => {
            mark_class(roster, t.object);
            mark_property(roster, t.subject);
        }
    }
}

// Marks each role of each triple of the table.
fn mark_table(words: Vocabulary, table: &[u32], roster: &mut [u8])
    requires { AllBelow (length roster.old) (triples table.now) }
    ensures { roster.new ≡ table_marked words roster.old (triples table.now) }
{
    for i in 0..table.len() / 3 {
        mark_roles(words, roster, triple_at(table, i));
    }
}

// The smallest roster that covers the table, written into the lent roster; N is its length.
pub fn own_roster(words: Vocabulary, table: &[u32], roster: &mut [u8]) -> Result<(), Refusal>
    ensures { OwnRosterCall words table.now roster.old result roster.new }
{
    let n = roster.len();
    if size_wrong(n) {
        return Err(Refusal::Length);
    }
    if length_wrong(table.len()) {
        return Err(Refusal::Length);
    }
    if words_wrong(words, n) {
        return Err(Refusal::Words);
    }
    if codes_wrong(words, table, n) {
        return Err(Refusal::Code);
    }
    roster.fill(0);
    mark_table(words, table, roster);
    Ok(())
}
