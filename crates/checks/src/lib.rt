// The checks that several calls share: lengths (refusal 1), word tables (10) and codes (3).
#![tactic(auto)]

ghost use Rattle.std.specs.Prelude.{◌≡◌};
ghost use Rattle.model.specs.Codes.{wrong_words};
ghost use Rattle.model.specs.Triples.{triples};
ghost use Rattle.model.specs.Roster.{wrong_end, wrong_triple, wrong_codes};
ghost use Rattle.model.specs.Outcomes.{wrong_size, wrong_length, wrong_work};
ghost use Rattle.checks.specs.Words.{over, repeats};

use lists::Code;
use model::{Triple, Vocabulary};

// The site size N is 5 to 65,536.
pub const SMALLEST_SIZE: usize = 5;

pub const LARGEST_SIZE: usize = 65536;

// The most triples of a table, and the most slots of an intake's lists.
pub const MOST_TRIPLES: usize = 1048576;

#[tactic(auto, unfolding(model::specs::Outcomes::wrong_size))]
pub fn size_wrong(n: usize) -> bool
    ensures { result ≡ wrong_size n }
{
    n < SMALLEST_SIZE || LARGEST_SIZE < n
}

// Not whole triples, or too many of them.
#[tactic(auto, unfolding(model::specs::Outcomes::wrong_length))]
pub fn length_wrong(l: usize) -> bool
    ensures { result ≡ wrong_length l }
{
    l % 3 != 0 || 3 * MOST_TRIPLES < l
}

// Whether the work list has not two numbers for each code.
pub fn work_wrong(n: usize, work: usize) -> bool
    ensures { result ≡ wrong_work n work }
{
    work % 2 != 0 || work / 2 != n
}

// Whether one of the words is not below n.
#[tactic(auto, unfolding(crate::specs::Words::over, model::specs::Lists::any))]
fn words_over(words: Vocabulary, n: usize) -> bool
    ensures { result ≡ over words n }
{
    n <= words.instance as usize
        || n <= words.subclass as usize
        || n <= words.subproperty as usize
        || n <= words.domain as usize
        || n <= words.range as usize
}

// Whether two of the words are equal.
#[tactic(auto, unfolding(crate::specs::Words::repeats, model::specs::Codes::repeated, model::specs::Lists::any))]
fn words_equal(words: Vocabulary) -> bool
    ensures { result ≡ repeats words }
{
    words.instance == words.subclass
        || words.instance == words.subproperty
        || words.instance == words.domain
        || words.instance == words.range
        || words.subclass == words.subproperty
        || words.subclass == words.domain
        || words.subclass == words.range
        || words.subproperty == words.domain
        || words.subproperty == words.range
        || words.domain == words.range
}

// Check 10: two words are equal, or one is not below n.
#[tactic(auto, unfolding(model::specs::Codes::wrong_words, crate::specs::Words::over, crate::specs::Words::repeats))]
pub fn words_wrong(words: Vocabulary, n: usize) -> bool
    ensures { result ≡ wrong_words words n }
{
    words_over(words, n) || words_equal(words)
}

// A subject or an object: not below n, or reserved.
#[tactic(auto, unfolding(model::specs::Roster::wrong_end))]
fn end_wrong(words: Vocabulary, c: u32, n: usize) -> bool
    ensures { result ≡ wrong_end words n c }
{
    n <= c as usize || Code(c).is_reserved(words)
}

#[tactic(auto, unfolding(model::specs::Roster::wrong_triple))]
pub fn triple_wrong(words: Vocabulary, t: Triple, n: usize) -> bool
    ensures { result ≡ wrong_triple words n t }
{
    end_wrong(words, t.subject, n) || n <= t.property as usize || end_wrong(words, t.object, n)
}

// Some triple of the table has a wrong code.
pub fn codes_wrong(words: Vocabulary, table: &[u32], n: usize) -> bool
    ensures { result ≡ wrong_codes words n (triples table.now) }
{
    for i in 0..table.len() / 3 {
        if triple_wrong(words, lists::triple_at(table, i), n) {
            return true;
        }
    }
    false
}
