// The outcome of a call, a part of a list and the reserved codes as numbers.
#![tactic(auto)]

ghost use Rattle.std.specs.Prelude.{◌≡◌, ◌≤◌, length};
ghost use Rattle.model.specs.Codes.{codes};
ghost use Rattle.model.specs.Outcomes.{refusal_number, outcome_of, found, replied};
ghost use Rattle.query.specs.Ask.{asked};
ghost use Rattle.call_numbers.specs.Status.{status_of, bit, bits, new_bit, Stores, Reports, ReportsPlace, StoresPart};
ghost use Rattle.call_numbers.specs.Words.{words_of};

use model::{Found, Refusal, Reply, Vocabulary, refusal_number};
use query::Asked;
use subject_lines::Part;

// The numbers of a word table: the reserved codes of type, subclass, subproperty, domain and range.
pub const WORDS_NUMBERS: usize = 5;

#[tactic(auto, unfolding(crate::specs::Status::status_of, model::specs::Outcomes::outcome_by))]
pub fn done_status(d: Result<(), Refusal>) -> u32
    ensures { result ≡ status_of (outcome_of d) }
{
    match d {
        Ok(()) => 0,
        Err(r) => refusal_number(r),
    }
}

// Stores the count of an accepted call.
#[tactic(auto, unfolding(crate::specs::Status::status_of, crate::specs::Status::value_or, model::specs::Outcomes::outcome_by))]
pub fn counted_status(c: Result<usize, Refusal>, count: &mut usize) -> u32
    ensures { Stores (outcome_of c) count.old result count.new }
{
    match c {
        Ok(k) => {
            *count = k;
            0
        },
        Err(r) => refusal_number(r),
    }
}

// A refusal of a call that reports a place, which is 0 then.
pub fn refused_status(r: Refusal, place: &mut usize) -> u32
    ensures { (result ≡ refusal_number r) × (place.new ≡ 0) }
{
    *place = 0;
    refusal_number(r)
}

// Stores 1 for yes and 0 for no, and the place.
#[tactic(auto, unfolding(crate::specs::Status::status_of, crate::specs::Status::value_or, crate::specs::Status::numbered, model::specs::Outcomes::outcome_by, model::specs::Outcomes::seen, model::specs::Outcomes::place_of))]
pub fn found_status(f: Result<Found, Refusal>, value: &mut u32, place: &mut usize) -> u32
    ensures { Reports bit (found f) value.old result value.new place.new }
{
    match f {
        Ok(Found::Yes(k)) => {
            *value = 1;
            *place = k;
            0
        },
        Ok(Found::No(k)) => {
            *value = 0;
            *place = k;
            0
        },
        Err(r) => refused_status(r, place),
    }
}

// Stores 1 for new and 0 for not new, and the place. No feed answers Removed.
#[tactic(auto, unfolding(crate::specs::Status::status_of, crate::specs::Status::value_or, crate::specs::Status::numbered, model::specs::Outcomes::outcome_by, model::specs::Outcomes::reply, model::specs::Outcomes::place_of))]
pub fn reply_status(a: Result<Reply, Refusal>, new: &mut u32, place: &mut usize) -> u32
    ensures { Reports new_bit (replied a) new.old result new.new place.new }
{
    match a {
        Ok(Reply::New(k)) => {
            *new = 1;
            *place = k;
            0
        },
        Ok(Reply::NotNew(k)) => {
            *new = 0;
            *place = k;
            0
        },
        Ok(Reply::Removed(k)) => {
            *new = 0;
            *place = k;
            0
        },
        Err(r) => refused_status(r, place),
    }
}

// Stores the place. No removal answers New or NotNew.
#[tactic(auto, unfolding(crate::specs::Status::status_of, model::specs::Outcomes::outcome_by, model::specs::Outcomes::reply, model::specs::Outcomes::place_of))]
pub fn place_status(a: Result<Reply, Refusal>, place: &mut usize) -> u32
    ensures { ReportsPlace (replied a) result place.new }
{
    match a {
        Ok(Reply::New(k)) => {
            *place = k;
            0
        },
        Ok(Reply::NotNew(k)) => {
            *place = k;
            0
        },
        Ok(Reply::Removed(k)) => {
            *place = k;
            0
        },
        Err(r) => refused_status(r, place),
    }
}

// Stores 1 for maybe and 0 for none.
#[tactic(auto, unfolding(crate::specs::Status::status_of, crate::specs::Status::value_or, crate::specs::Status::numbered, model::specs::Outcomes::outcome_by, query::specs::Ask::says_maybe))]
pub fn asked_status(a: Result<Asked, Refusal>, maybe: &mut u32) -> u32
    ensures { Stores (bits (asked a)) maybe.old result maybe.new }
{
    match a {
        Ok(Asked::Maybe) => {
            *maybe = 1;
            0
        },
        Ok(Asked::None) => {
            *maybe = 0;
            0
        },
        Err(r) => refusal_number(r),
    }
}

// Stores 1 for the summary and 0 for the table, the index of the part's first number, and how many numbers it has.
pub fn part_status(p: Part, own: &mut u32, start: &mut usize, count: &mut usize) -> u32
    requires { p.start ≤ p.end }
    ensures { StoresPart p result own.new start.new count.new }
{
    *own = p.own as u32;
    *start = p.start;
    *count = p.end - p.start;
    0
}

// The reserved codes of five numbers.
#[tactic(auto, unfolding(crate::specs::Words::words_of))]
pub fn words_of(words: &[u32]) -> Vocabulary
    requires { length words.now ≡ 5 }
    ensures { result ≡ words_of words.now }
{
    Vocabulary {
        instance: words[0],
        subclass: words[1],
        subproperty: words[2],
        domain: words[3],
        range: words[4],
    }
}

// Stores the five numbers of the reserved codes.
pub fn put_words(list: &mut [u32], v: Vocabulary)
    requires { length list.old ≡ 5 }
    ensures { list.new ≡ codes v }
{
    list.copy_from_slice(&[v.instance, v.subclass, v.subproperty, v.domain, v.range]);
}
