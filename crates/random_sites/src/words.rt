// Random word tables, and what the codes of a site drawn with 0 to 4 become with another word table.
ghost use Rattle.std.specs.Prelude.{◌≤◌};

use super::random::{chance, get, mix, pick};
use lists::{rdfs_words, word_of};
use model::{Vocabulary, Word};
use naive_lists::Words;

// No code is as large.
const NONE: u32 = 4294967295;

// The five codes from a place of a list on.
pub fn words_at(list: &[u32], k: usize) -> Vocabulary
    requires { k ≤ 1000 }
{
    Vocabulary {
        instance: get(list, k),
        subclass: get(list, k + 1),
        subproperty: get(list, k + 2),
        domain: get(list, k + 3),
        range: get(list, k + 4),
    }
}

// The five codes as the naive engine takes them.
pub fn plain_words(words: Vocabulary) -> Words {
    Words {
        instance: words.instance,
        subclass: words.subclass,
        subproperty: words.subproperty,
        domain: words.domain,
        range: words.range,
    }
}

// How many of the five are a code or below it.
fn words_to(words: Vocabulary, code: u32) -> u32
    ensures { result ≤ 5 }
{
    u32::from(words.instance <= code)
        + u32::from(words.subclass <= code)
        + u32::from(words.subproperty <= code)
        + u32::from(words.domain <= code)
        + u32::from(words.range <= code)
}

// The code at place i of those that are none of the five.
pub fn free_code(words: Vocabulary, i: u32) -> u32
    requires { i ≤ 4294967290 }
{
    let mut code = i;
    for _ in 0..5 {
        code = i + words_to(words, code);
    }
    code
}

// The reserved code at a place: type, subclass, subproperty, domain, range.
pub fn word_at(words: Vocabulary, place: u32) -> u32 {
    let word = match place {
        1 => Word::Subclass,
        2 => Word::Subproperty,
        3 => Word::Domain,
        4 => Word::Range,
        _ => Word::Instance,
    };
    word_of(words, word)
}

// What a code becomes: one below 5 the word at its place, another the code at its place of the others.
fn name(words: Vocabulary, code: u32) -> u32 {
    if code < 5 {
        word_at(words, code)
    } else {
        free_code(words, code - 5)
    }
}

pub fn rename(words: Vocabulary, list: &mut [u32]) {
    for code in list {
        *code = name(words, *code);
    }
}

// Five different codes below n, in any order.
fn draw(seed: u64, n: u32) -> Vocabulary
    requires { 5 ≤ n }
{
    let mut words = Vocabulary {
        instance: pick(seed, 1, n),
        subclass: NONE,
        subproperty: NONE,
        domain: NONE,
        range: NONE,
    };
    words.subclass = free_code(words, pick(seed, 2, n - 1));
    words.subproperty = free_code(words, pick(seed, 3, n - 2));
    words.domain = free_code(words, pick(seed, 4, n - 3));
    words.range = free_code(words, pick(seed, 5, n - 4));
    words
}

// The words that a site of n codes is made with: half of the time 0 to 4.
pub fn right(seed: u64, n: usize) -> Vocabulary {
    let codes = n.min(65536) as u32;
    if codes < 5 || chance(seed, 90, 2) {
        return rdfs_words();
    }
    draw(mix(seed, 91), codes)
}

// The words with another one at place k.
fn with_word(words: Vocabulary, k: u32, code: u32) -> Vocabulary {
    match k {
        0 => Vocabulary {
            instance: code,
            ..words
        },
        1 => Vocabulary {
            subclass: code,
            ..words
        },
        2 => Vocabulary {
            subproperty: code,
            ..words
        },
        3 => Vocabulary {
            domain: code,
            ..words
        },
        _ => Vocabulary {
            range: code,
            ..words
        },
    }
}

// One of the five is not below n, or equal to another.
pub fn spoilt(words: Vocabulary, seed: u64, n: usize) -> Vocabulary {
    let k = pick(seed, 1, 5);
    let code = match pick(seed, 2, 4) {
        0 => n.min(65536) as u32,
        1 => NONE,
        _ => word_at(words, (k + 1 + pick(seed, 3, 4)) % 5),
    };
    with_word(words, k, code)
}

// The words that a call is given: now and then spoilt.
pub fn given(seed: u64, n: usize) -> Vocabulary {
    let words = right(seed, n);
    if chance(seed, 92, 24) {
        return spoilt(words, mix(seed, 93), n);
    }
    words
}
