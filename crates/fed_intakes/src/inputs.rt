// What an intake is given: its words and lists' lengths, and a list of calls, each a feed or a removal.
use model::Vocabulary;

// The words of the opening, whether there is one, how many calls there are after it, and the lengths of triples, summary, weights and
// map. The lists of an intake that is not opened are junk, its counts 1.
#[derive(Clone, Copy)]
pub struct Case {
    pub words: Vocabulary,
    pub opens: bool,
    pub calls: usize,
    pub triples: usize,
    pub summary: usize,
    pub weights: usize,
    pub map: usize,
}

// The length of the work list, the triple, the words, whether the spoilt roster is lent, and whether the triple is to be removed.
#[derive(Clone, Copy)]
pub struct Call {
    pub work: usize,
    pub subject: u32,
    pub property: u32,
    pub object: u32,
    pub words: Vocabulary,
    pub spoilt: bool,
    pub removes: bool,
}

impl Call {
    // A feed with the roster of the opening.
    pub fn feed(words: Vocabulary, work: usize, s: u32, p: u32, o: u32) -> Self {
        Self {
            work,
            subject: s,
            property: p,
            object: o,
            words,
            spoilt: false,
            removes: false,
        }
    }

    // The removal of the call's triple.
    pub fn removal(self) -> Self {
        Self {
            removes: true,
            ..self
        }
    }
}

// No list of calls is longer.
pub const MOST_CALLS: usize = 60;

// A case with its calls, the roster of the opening, and the spoilt one.
#[derive(Clone, Copy)]
pub struct Input<'a> {
    pub case: Case,
    pub calls: &'a [Call],
    pub roster: &'a [u8],
    pub spoilt: &'a [u8],
}

impl Input<'_> {
    // The same with another number of calls.
    pub fn with_calls(self, calls: usize) -> Self {
        Self {
            case: Case { calls, ..self.case },
            ..self
        }
    }

    // The roster that a call is lent.
    pub fn lent(&self, call: Call) -> &[u8] {
        if call.spoilt {
            self.spoilt
        } else {
            self.roster
        }
    }
}
