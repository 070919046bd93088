// The rules of the table, and what one rule gives from two premises: which fit, which drives, and where its partners stand.
#![tactic(auto)]

ghost use Rattle.std.specs.Prelude.{◌&&◌, ◌||◌, ◌≡◌, ◌<◌, eqb, get_or};
ghost use Rattle.model.specs.Codes.{kind, word_number, kind_number};
ghost use Rattle.model.specs.Rules.{rules, numbered, place_number, place, fits, gives};
ghost use Rattle.rule_premises.specs.Premises.{no_rule, rule_count, partner_key, drives};

use lists::{Code, word_of};
use model::{Place, Rule, Triple, Vocabulary, Word, rule_table};

// A rule of the table by its place.
pub fn rule_at(k: usize) -> Rule
    requires { k < rule_count }
    ensures { numbered result ≡ get_or rules k no_rule }
{
    rule_table()[k]
}

// The code at a place of two premises.
#[tactic(auto, unfolding(model::specs::Rules::place, model::specs::Rules::place_number))]
fn place(words: Vocabulary, a: Triple, b: Triple, k: Place) -> u32
    ensures { result ≡ place words a b (place_number k) }
{
    match k {
        Place::FirstSubject => a.subject,
        Place::FirstProperty => a.property,
        Place::FirstObject => a.object,
        Place::SecondSubject => b.subject,
        Place::SecondProperty => b.property,
        Place::SecondObject => b.object,
        Place::Instance => words.instance,
    }
}

// Whether a property is the code of a word.
#[tactic(auto, unfolding(model::specs::Codes::kind_number, model::specs::Codes::word_number))]
fn is_word(words: Vocabulary, property: u32, word: Word) -> bool
    ensures { result ≡ eqb (kind words property) (word_number word) }
{
    Code(property).kind(words) == Some(word)
}

// Whether a property is of the kind wanted, where None wants any.
#[tactic(auto, unfolding(model::specs::Codes::kind_number, model::specs::Codes::word_number))]
fn kind_fits(words: Vocabulary, property: u32, wanted: Option<Word>) -> bool
    ensures { result ≡ (eqb (kind_number wanted) 5 || eqb (kind words property) (kind_number wanted)) }
{
    wanted.is_none() || Code(property).kind(words) == wanted
}

// Whether two triples are premises of a rule, in this order.
#[tactic(auto, unfolding(model::specs::Rules::fits, model::specs::Rules::numbered))]
pub fn fits(words: Vocabulary, r: Rule, a: Triple, b: Triple) -> bool
    ensures { result ≡ fits words (numbered r) a b }
{
    is_word(words, a.property, r.first)
        && kind_fits(words, b.property, r.second)
        && place(words, a, b, r.left) == place(words, a, b, r.right)
}

// What a rule gives from two premises.
#[tactic(auto, unfolding(model::specs::Rules::gives, model::specs::Rules::numbered))]
pub fn gives(words: Vocabulary, r: Rule, a: Triple, b: Triple) -> Triple
    ensures { result ≡ gives words (numbered r) a b }
{
    Triple {
        subject: place(words, a, b, r.subject),
        property: place(words, a, b, r.property),
        object: place(words, a, b, r.object),
    }
}

// Whether a rule's second premise drives: its first shared place is the first premise's subject. Else the first premise drives.
#[tactic(auto, unfolding(model::specs::Rules::numbered, model::specs::Rules::place_number))]
pub fn second_drives(r: Rule) -> bool
    ensures { result ≡ eqb (numbered r).left 0 }
{
    r.left == Place::FirstSubject
}

// The first triple, in order, that can be the partner of a driving premise: the partner's subject is the code that they share.
#[tactic(auto, unfolding(crate::specs::Premises::partner_key, model::specs::Rules::numbered, model::specs::Codes::kind_number, model::specs::Codes::word_number, model::specs::Codes::code_of))]
pub fn partner_key(words: Vocabulary, r: Rule, driver: Triple) -> Triple
    ensures { result ≡ partner_key words (numbered r) driver }
{
    if second_drives(r) {
        Triple {
            subject: place(words, driver, driver, r.right),
            property: word_of(words, r.first),
            object: 0,
        }
    } else {
        Triple {
            subject: place(words, driver, driver, r.left),
            property: word_of(words, r.second.unwrap_or(Word::Instance)),
            object: 0,
        }
    }
}

// Whether a triple has the subject and the property of another.
pub fn same_front(t: Triple, key: Triple) -> bool
    ensures { result ≡ (eqb t.subject key.subject && eqb t.property key.property) }
{
    t.subject == key.subject && t.property == key.property
}

// Whether a triple's property is of the kind of the rule's driving premise.
#[tactic(auto, unfolding(crate::specs::Premises::drives, model::specs::Rules::numbered))]
pub fn drives(words: Vocabulary, r: Rule, driver: Triple) -> bool
    ensures { result ≡ drives words (numbered r) driver }
{
    if second_drives(r) {
        kind_fits(words, driver.property, r.second)
    } else {
        is_word(words, driver.property, r.first)
    }
}
