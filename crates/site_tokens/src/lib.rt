// The tokens of a text in the site form: fixed words, numbers, the ends of a line and of the text; and what the readers of all parts
// answer: the value of a form and the place after it, or None where no such form stands.
#![tactic(auto)]

ghost use Rattle.std.specs.Prelude.{◌≡◌, drop};
ghost use Rattle.site_form.specs.Reading.{more_of, number, word, text_end, line_end};
ghost use Rattle.site_tokens.specs.Steps.{step, place_step, number_after};

// A value that was read, and the place after it.
#[derive(Clone, Copy)]
pub struct Read<T> {
    pub value: T,
    pub next: usize,
}

// The digits that follow a value, from a place on.
fn digits(text: &[u8], from: usize, first: u32) -> Option<Read<u32>>
    ensures { step result ≡ more_of first from (drop from text.now) }
{
    let mut value = first;
    let mut next = from;
    while next < text.len() && text[next].is_ascii_digit() {
        value = value
            .checked_mul(10)?
            .checked_add(u32::from(text[next] - b'0'))?;
        next += 1;
    }
    Some(Read { value, next })
}

// A number of u32 without leading zeros.
fn number(text: &[u8], at: usize) -> Option<Read<u32>>
    ensures { step result ≡ number text.now at }
{
    let b = *text.get(at)?;
    if !b.is_ascii_digit() {
        return None;
    }
    let next = at + 1;
    if b != b'0' {
        return digits(text, next, u32::from(b - b'0'));
    }
    if next < text.len() && text[next].is_ascii_digit() {
        return None;
    }
    Some(Read { value: 0, next })
}

// The place after the bytes w.
pub fn word(text: &[u8], at: usize, w: &[u8]) -> Option<usize>
    ensures { place_step result ≡ word w.now text.now at }
{
    let rest = &text[at.min(text.len())..];
    if rest.starts_with(w) {
        Some(at + w.len())
    } else {
        None
    }
}

// A number behind the bytes w.
#[tactic(auto, using(crate::proofs::Steps::behind_parts))]
pub fn number_after(text: &[u8], at: usize, w: &[u8]) -> Option<Read<u32>>
    ensures { step result ≡ number_after w.now text.now at }
{
    number(text, word(text, at, w)?)
}

// The end of a line.
#[tactic(auto, unfolding(site_form::specs::Reading::line_end))]
pub fn line_end(text: &[u8], at: usize) -> Option<usize>
    ensures { place_step result ≡ line_end text.now at }
{
    word(text, at, b")\n")
}

// The end of the text.
#[tactic(auto, unfolding(site_form::specs::Reading::text_end))]
pub fn text_end(text: &[u8], at: usize) -> Option<usize>
    ensures { place_step result ≡ text_end text.now at }
{
    if at < text.len() { None } else { Some(at) }
}
