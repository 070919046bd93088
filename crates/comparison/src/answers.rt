// The answers of both engines in one form.
use model::{Found, Refusal, Reply};
use query::Asked;

// The number of a refusal, 0 for none, a count, and a place.
#[derive(Clone, Copy, PartialEq, Eq)]
pub struct Answer {
    pub refused: u32,
    pub count: usize,
    pub place: usize,
}

impl Answer {
    fn refused(refused: u32) -> Self {
        Self {
            refused,
            count: 0,
            place: 0,
        }
    }

    // Yes or no is a count of 1 or 0; a count of 2 stands for removed.
    pub fn accepted(count: usize, place: usize) -> Self {
        Self {
            refused: 0,
            count,
            place,
        }
    }
}

// What an engine answers: nothing, a count, yes or no, or that with a place; then that or a refusal.
impl From<()> for Answer {
    fn from(_nothing: ()) -> Answer {
        Answer::accepted(0, 0)
    }
}

impl From<usize> for Answer {
    fn from(count: usize) -> Answer {
        Answer::accepted(count, 0)
    }
}

impl From<bool> for Answer {
    fn from(yes: bool) -> Answer {
        Answer::accepted(usize::from(yes), 0)
    }
}

impl From<naive_ask::Found> for Answer {
    fn from(found: naive_ask::Found) -> Answer {
        Answer::accepted(usize::from(found.held), found.place)
    }
}

impl<T: Into<Answer>> From<Result<T, naive_lists::Refusal>> for Answer {
    fn from(answered: Result<T, naive_lists::Refusal>) -> Answer {
        match answered {
            Ok(accepted) => accepted.into(),
            Err(refusal) => Answer::refused(refusal.into()),
        }
    }
}

impl From<Found> for Answer {
    fn from(found: Found) -> Answer {
        match found {
            Found::Yes(place) => Answer::accepted(1, place),
            Found::No(place) => Answer::accepted(0, place),
        }
    }
}

impl From<Reply> for Answer {
    fn from(reply: Reply) -> Answer {
        match reply {
            Reply::New(place) => Answer::accepted(1, place),
            Reply::NotNew(place) => Answer::accepted(0, place),
            Reply::Removed(place) => Answer::accepted(2, place),
        }
    }
}

impl From<Asked> for Answer {
    fn from(asked: Asked) -> Answer {
        (asked == Asked::Maybe).into()
    }
}

// The numbers once more, so that a wrong one in the engine shows.
fn number(refusal: Refusal) -> u32 {
    match refusal {
        Refusal::Length => 1,
        Refusal::Roster => 2,
        Refusal::Code => 3,
        Refusal::Cover => 4,
        Refusal::Slots => 5,
        Refusal::Query => 6,
        Refusal::Full => 7,
        Refusal::Form => 8,
        Refusal::Missing => 9,
        Refusal::Words => 10,
        Refusal::Retired => 12,
    }
}

impl<T: Into<Answer>> From<Result<T, Refusal>> for Answer {
    fn from(answered: Result<T, Refusal>) -> Answer {
        match answered {
            Ok(accepted) => accepted.into(),
            Err(refusal) => Answer::refused(number(refusal)),
        }
    }
}
