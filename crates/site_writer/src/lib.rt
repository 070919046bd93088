// The writer of the site form: lines put on a page, and the call `write`.
#![tactic(auto)]

ghost use Rattle.std.specs.Prelude.{◌≡◌, ◌≤◌, length};
ghost use Rattle.model.specs.Codes.{rdfs};
ghost use Rattle.model.specs.Lists.{collect};
ghost use Rattle.model.specs.Triples.{triples};
ghost use Rattle.lists.specs.Flat.{Cleared};
ghost use Rattle.site_form.specs.Text.{site_line, words_line, words_text, triple_line};
ghost use Rattle.site_form.specs.Writing.{same_words, line_of, written};
ghost use Rattle.site_bytes.specs.Calls.{Room, Put, HasRoom, Wrote};
ghost use Rattle.site_writer.specs.Calls.{WriteCall};

use lists::Code;
use model::{Refusal, Triple, Vocabulary};
use site_bytes::Page;
use site_form::MOST_LINES;

// Puts the line `(site N)`.
fn put_site(page: &mut Page, n: u32)
    requires { HasRoom page.old (site_line n) }
    ensures { Wrote page.old (site_line n) page.new }
{
    page.put_after(b"(site ", n);
    page.put(b")\n");
}

// Puts the line `(words A B C D E)`.
fn put_words(page: &mut Page, words: Vocabulary)
    requires { HasRoom page.old (words_line words) }
    ensures { Wrote page.old (words_line words) page.new }
{
    page.put_after(b"(words ", words.instance);
    page.put_after(b" ", words.subclass);
    page.put_after(b" ", words.subproperty);
    page.put_after(b" ", words.domain);
    page.put_after(b" ", words.range);
    page.put(b")\n");
}

// Whether the reserved codes are 0 to 4 in that sequence.
#[tactic(auto, unfolding(site_form::specs::Writing::same_words))]
fn plain_words(words: Vocabulary) -> bool
    ensures { result ≡ same_words words rdfs }
{
    words.instance == Code::TYPE
        && words.subclass == Code::SUBCLASS
        && words.subproperty == Code::SUBPROPERTY
        && words.domain == Code::DOMAIN
        && words.range == Code::RANGE
}

// Puts the line of the reserved codes, or nothing where they are 0 to 4.
fn put_loaded(page: &mut Page, words: Vocabulary)
    requires { HasRoom page.old (words_text (line_of words)) }
    ensures { Wrote page.old (words_text (line_of words)) page.new }
{
    if !plain_words(words) {
        put_words(page, words);
    }
}

// Puts a line `(t S P O)`.
fn put_triple(page: &mut Page, t: Triple)
    requires { HasRoom page.old (triple_line t) }
    ensures { Wrote page.old (triple_line t) page.new }
{
    page.put_after(b"(t ", t.subject);
    page.put_after(b" ", t.property);
    page.put_after(b" ", t.object);
    page.put(b")\n");
}

// Puts a line for each triple of the table.
pub fn put_triples(page: &mut Page, table: &[u32])
    requires { HasRoom page.old (collect triple_line (triples table.now)) }
    ensures { Wrote page.old (collect triple_line (triples table.now)) page.new }
{
    for i in 0..table.len() / 3 {
        put_triple(page, lists::triple_at(table, i));
    }
}

// Puts the text of a table into a list from its front; the number of bytes.
fn put_text(words: Vocabulary, n: u32, table: &[u32], out: &mut [u8]) -> usize
    requires { Room 0 (written words n table.now) }
    ensures { Put out.old 0 (written words n table.now) out.new result }
{
    let mut page = Page::new(out);
    put_site(&mut page, n);
    put_loaded(&mut page, words);
    put_triples(&mut page, table);
    page.at
}

// Zeros from index a on.
fn clear_from(out: &mut [u8], a: usize)
    requires { a ≤ length out.old }
    ensures { Cleared out.old out.new a (length out.old) }
{
    out[a..].fill(0);
}

// Writes the site line, the line of the reserved codes where they are not 0 to 4, and the table's triples in their order, with zeros
// behind; the number of bytes. Refused with 1, then 10, then 3, then with 5 where the list has too few bytes.
pub fn write(words: Vocabulary, n: u32, table: &[u32], out: &mut [u8]) -> Result<usize, Refusal>
    ensures { WriteCall words n table.now out.old result out.new }
{
    let size = n as usize;
    if checks::size_wrong(size) {
        return Err(Refusal::Length);
    }
    if checks::length_wrong(table.len()) {
        return Err(Refusal::Length);
    }
    if MOST_LINES < table.len() / 3 {
        return Err(Refusal::Length);
    }
    if checks::words_wrong(words, size) {
        return Err(Refusal::Words);
    }
    if checks::codes_wrong(words, table, size) {
        return Err(Refusal::Code);
    }
    let count = put_text(words, n, table, out);
    let room = out.len();
    if room < count {
        clear_from(out, 0);
        return Err(Refusal::Slots);
    }
    clear_from(out, count);
    Ok(count)
}
