// The types that every crate shares, and the constant rule table.
// What they mean is defined in specs/.
#![tactic(auto)]

ghost use Rattle.std.specs.Prelude.{◌≡◌, map};
ghost use Rattle.model.specs.Outcomes.{refusal_number};
ghost use Rattle.model.specs.Rules.{numbered, rules};

// The reserved codes of a site, one for each of type, subclass, subproperty, domain and range: 02's "word table".
// `instance` is the code of type, a word of the language.
#[derive(Clone, Copy)]
pub struct Vocabulary {
    pub instance: u32,
    pub subclass: u32,
    pub subproperty: u32,
    pub domain: u32,
    pub range: u32,
}

// Subject, property, object.
#[derive(Clone, Copy, PartialEq, Eq, PartialOrd, Ord)]
pub struct Triple {
    pub subject: u32,
    pub property: u32,
    pub object: u32,
}

// The two ends of a triple: its subject is at the source side and its object at the target side.
#[derive(Clone, Copy, PartialEq, Eq)]
pub enum Side {
    Source,
    Target,
}

// What a reserved code means.
#[derive(Clone, Copy, PartialEq, Eq)]
pub enum Word {
    Instance,
    Subclass,
    Subproperty,
    Domain,
    Range,
}

// A place of two premises, or the code of type.
#[derive(Clone, Copy, PartialEq, Eq)]
pub enum Place {
    FirstSubject,
    FirstProperty,
    FirstObject,
    SecondSubject,
    SecondProperty,
    SecondObject,
    Instance,
}

// One inference rule: the words that are its premises' properties (None: any property), the two places of the premises that hold one
// code, and the places that give the conclusion's subject, property and object.
#[derive(Clone, Copy)]
pub struct Rule {
    pub first: Word,
    pub second: Option<Word>,
    pub left: Place,
    pub right: Place,
    pub subject: Place,
    pub property: Place,
    pub object: Place,
}

pub const RULE_COUNT: usize = 10;

// The ten rules that saturation walks, each at its number less one: rdfs2, rdfs3, rdfs5, rdfs7, rdfs9, rdfs11, and the four by which
// domains and ranges follow from others.
pub const RULES: [Rule; RULE_COUNT] = [
    // rdfs2: a domain c, s a o give s type c
    Rule {
        first: Word::Domain,
        second: None,
        left: Place::FirstSubject,
        right: Place::SecondProperty,
        subject: Place::SecondSubject,
        property: Place::Instance,
        object: Place::FirstObject,
    },
    // rdfs3: a range c, s a o give o type c
    Rule {
        first: Word::Range,
        second: None,
        left: Place::FirstSubject,
        right: Place::SecondProperty,
        subject: Place::SecondObject,
        property: Place::Instance,
        object: Place::FirstObject,
    },
    // rdfs5: a subproperty b, b subproperty c give a subproperty c
    Rule {
        first: Word::Subproperty,
        second: Some(Word::Subproperty),
        left: Place::FirstObject,
        right: Place::SecondSubject,
        subject: Place::FirstSubject,
        property: Place::FirstProperty,
        object: Place::SecondObject,
    },
    // rdfs7: a subproperty b, s a o give s b o
    Rule {
        first: Word::Subproperty,
        second: None,
        left: Place::FirstSubject,
        right: Place::SecondProperty,
        subject: Place::SecondSubject,
        property: Place::FirstObject,
        object: Place::SecondObject,
    },
    // rdfs9: c subclass d, s type c give s type d
    Rule {
        first: Word::Subclass,
        second: Some(Word::Instance),
        left: Place::FirstSubject,
        right: Place::SecondObject,
        subject: Place::SecondSubject,
        property: Place::SecondProperty,
        object: Place::FirstObject,
    },
    // rdfs11: c subclass d, d subclass e give c subclass e
    Rule {
        first: Word::Subclass,
        second: Some(Word::Subclass),
        left: Place::FirstObject,
        right: Place::SecondSubject,
        subject: Place::FirstSubject,
        property: Place::FirstProperty,
        object: Place::SecondObject,
    },
    // a subproperty b, b domain c give a domain c
    Rule {
        first: Word::Subproperty,
        second: Some(Word::Domain),
        left: Place::FirstObject,
        right: Place::SecondSubject,
        subject: Place::FirstSubject,
        property: Place::SecondProperty,
        object: Place::SecondObject,
    },
    // a subproperty b, b range c give a range c
    Rule {
        first: Word::Subproperty,
        second: Some(Word::Range),
        left: Place::FirstObject,
        right: Place::SecondSubject,
        subject: Place::FirstSubject,
        property: Place::SecondProperty,
        object: Place::SecondObject,
    },
    // a domain c, c subclass d give a domain d
    Rule {
        first: Word::Domain,
        second: Some(Word::Subclass),
        left: Place::FirstObject,
        right: Place::SecondSubject,
        subject: Place::FirstSubject,
        property: Place::FirstProperty,
        object: Place::SecondObject,
    },
    // a range c, c subclass d give a range d
    Rule {
        first: Word::Range,
        second: Some(Word::Subclass),
        left: Place::FirstObject,
        right: Place::SecondSubject,
        subject: Place::FirstSubject,
        property: Place::FirstProperty,
        object: Place::SecondObject,
    },
];

// The table as a value: the constant is the definitions' table.
#[tactic(auto, unfolding(crate::specs::Rules::numbered, crate::specs::Rules::place_number, crate::specs::Codes::kind_number, crate::specs::Codes::word_number))]
pub fn rule_table() -> [Rule; RULE_COUNT]
    ensures { map numbered result ≡ rules }
{
    RULES
}

// Why a call is refused; `refusal_number` in specs/Outcomes.antt gives the number of each. A call answers `Result<.., Refusal>`;
// specs/Outcomes.antt says which outcome each answer stands for.
#[derive(Clone, Copy, PartialEq, Eq)]
pub enum Refusal {
    Length,
    Roster,
    Code,
    Cover,
    Slots,
    Query,
    Full,
    Form,
    Missing,
    Words,
    Retired,
}

// A refusal's number.
#[tactic(auto, unfolding(crate::specs::Outcomes::refusal_number))]
pub fn refusal_number(refusal: Refusal) -> u32
    ensures { result ≡ refusal_number refusal }
{
    match refusal {
        Refusal::Length => 1,
        Refusal::Roster => 2,
        Refusal::Code => 3,
        Refusal::Cover => 4,
        Refusal::Slots => 5,
        Refusal::Query => 6,
        Refusal::Full => 7,
        Refusal::Form => 8,
        Refusal::Missing => 9,
        Refusal::Words => 10,
        Refusal::Retired => 12,
    }
}

// Look up: whether the triple is in the list, and how many triples of it come before it.
#[derive(Clone, Copy)]
pub enum Found {
    Yes(usize),
    No(usize),
}

// Feeding and removing: whether the triple was new or has left, and how many of the triples held before the call come before it.
#[derive(Clone, Copy)]
pub enum Reply {
    New(usize),
    NotNew(usize),
    Removed(usize),
}
