// Queries: their types, and the refusal of a retired one. What they mean is defined in specs/.
#![tactic(auto)]

ghost use Rattle.std.specs.Prelude.{◌≡◌, eqb};
ghost use Rattle.model.specs.Outcomes.{refusal_number};
ghost use Rattle.query.specs.Ask.{blank};

use model::Refusal;

// An end of a pattern: a variable 0 to 7, or a code.
#[derive(Clone, Copy)]
pub enum End {
    Var(u32),
    Code(u32),
}

#[derive(Clone, Copy)]
pub struct Pattern {
    pub subject: End,
    pub property: u32,
    pub object: End,
}

// One to eight patterns; those past the count are not looked at.
#[derive(Clone, Copy)]
pub struct Query {
    pub patterns: [Pattern; 8],
    pub count: u32,
}

// The answer to a query that is not refused; `asked` in specs/Ask.antt gives the outcome.
#[derive(Clone, Copy, PartialEq, Eq)]
pub enum Asked {
    Maybe,
    None,
}

// The pattern `((v 0) 0 (v 0))`, which stands in the places past a query's count.
pub fn blank_pattern() -> Pattern
    ensures { result ≡ blank }
{
    Pattern {
        subject: End::Var(0),
        property: 0,
        object: End::Var(0),
    }
}

// Whether a refusal is that of a retired query.
#[tactic(auto, unfolding(model::specs::Outcomes::refusal_number))]
pub fn is_retired(refusal: Refusal) -> bool
    ensures { result ≡ eqb (refusal_number refusal) 12 }
{
    refusal == Refusal::Retired
}
