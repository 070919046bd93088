// Readers of the parts of the site form. Each takes the text and a place in it, and answers the form and the place after it, or None.
#![tactic(auto)]

ghost use Rattle.std.specs.Prelude.{◌≡◌, ℕ};
ghost use Rattle.query.specs.declared.End.{End};
ghost use Rattle.query.specs.declared.End.TheVariants.{Code};
ghost use Rattle.model.specs.Triples.{triple};
ghost use Rattle.site_form.specs.Text.{bytes};
ghost use Rattle.site_form.specs.Reading.{site_reader, words_reader, triple_reader, end_in, end_reader, pattern_reader, next_reader};
ghost use Rattle.site_tokens.specs.Steps.{step, mapped, end_after, three_in};

use model::{Triple, Vocabulary};
use query::{End, Pattern};
use site_tokens::{Read, line_end, number_after, word};

// The line `(site N)`.
#[tactic(auto, using(crate::proofs::Forms::site_parts))]
pub fn site_line(text: &[u8], at: usize) -> Option<Read<u32>>
    ensures { step result ≡ site_reader text.now at }
{
    let size = number_after(text, at, b"(site ")?;
    let next = line_end(text, size.next)?;
    Some(Read {
        value: size.value,
        next,
    })
}

// Three numbers with single spaces between them, the first behind the bytes w, and the line's end; as a triple.
#[tactic(auto, using(crate::proofs::Forms::three_parts))]
fn three_numbers(text: &[u8], at: usize, w: &[u8]) -> Option<Read<Triple>>
    ensures { step result ≡ three_in w.now triple text.now at }
{
    let subject = number_after(text, at, w)?;
    let property = number_after(text, subject.next, b" ")?;
    let object = number_after(text, property.next, b" ")?;
    let next = line_end(text, object.next)?;
    let value = Triple {
        subject: subject.value,
        property: property.value,
        object: object.value,
    };
    Some(Read { value, next })
}

// A line `(t S P O)`.
#[tactic(auto, unfolding(site_tokens::specs::Steps::three_in, site_form::specs::Reading::triple_reader))]
pub fn triple_line(text: &[u8], at: usize) -> Option<Read<Triple>>
    ensures { step result ≡ triple_reader text.now at }
{
    three_numbers(text, at, b"(t ")
}

// The line `(words A B C D E)`.
#[tactic(auto, using(crate::proofs::Forms::words_parts))]
pub fn words_line(text: &[u8], at: usize) -> Option<Read<Vocabulary>>
    ensures { step result ≡ words_reader text.now at }
{
    let instance = number_after(text, at, b"(words ")?;
    let subclass = number_after(text, instance.next, b" ")?;
    let rest = three_numbers(text, subclass.next, b" ")?;
    let value = Vocabulary {
        instance: instance.value,
        subclass: subclass.value,
        subproperty: rest.value.subject,
        domain: rest.value.property,
        range: rest.value.object,
    };
    Some(Read {
        value,
        next: rest.next,
    })
}

// The number of an end: behind the bytes w, and with a closing bracket.
#[tactic(auto, using(crate::proofs::Forms::end_parts))]
fn end_number(text: &[u8], at: usize, w: &[u8]) -> Option<Read<u32>>
    ensures { (make : ℕ → End) → mapped make (step result) ≡ end_in w.now make text.now at }
{
    let number = number_after(text, at, w)?;
    let next = word(text, number.next, b")")?;
    Some(Read {
        value: number.value,
        next,
    })
}

// An end `(c CODE)`.
fn code_end(text: &[u8], at: usize) -> Option<Read<End>>
    ensures { step result ≡ end_in (bytes "(c ") Code text.now at }
{
    let code = end_number(text, at, b"(c ")?;
    Some(Read {
        value: End::Code(code.value),
        next: code.next,
    })
}

// An end `(v K)` or `(c CODE)`.
#[tactic(auto, using(crate::proofs::Forms::either_end))]
fn pattern_end(text: &[u8], at: usize) -> Option<Read<End>>
    ensures { step result ≡ end_reader text.now at }
{
    match end_number(text, at, b"(v ") {
        Some(Read { value, next }) => Some(Read {
            value: End::Var(value),
            next,
        }),
        None => code_end(text, at),
    }
}

// An end behind the bytes w.
#[tactic(auto, using(site_tokens::proofs::Steps::behind_parts))]
fn end_after(text: &[u8], at: usize, w: &[u8]) -> Option<Read<End>>
    ensures { step result ≡ end_after w.now text.now at }
{
    pattern_end(text, word(text, at, w)?)
}

// A pattern `(END P END)`.
#[tactic(auto, using(crate::proofs::Forms::pattern_parts))]
fn pattern_form(text: &[u8], at: usize) -> Option<Read<Pattern>>
    ensures { step result ≡ pattern_reader text.now at }
{
    let subject = end_after(text, at, b"(")?;
    let property = number_after(text, subject.next, b" ")?;
    let object = end_after(text, property.next, b" ")?;
    let next = word(text, object.next, b")")?;
    let value = Pattern {
        subject: subject.value,
        property: property.value,
        object: object.value,
    };
    Some(Read { value, next })
}

// A pattern with the space before it.
#[tactic(auto, using(site_tokens::proofs::Steps::behind_parts), unfolding(site_form::specs::Reading::next_reader))]
pub fn next_pattern(text: &[u8], at: usize) -> Option<Read<Pattern>>
    ensures { step result ≡ next_reader text.now at }
{
    pattern_form(text, word(text, at, b" ")?)
}
