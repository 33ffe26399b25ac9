// Text between tags and strings of attributes, decoded and written.
ghost use Rattle.std.specs.Prelude.{◌≡◌, true, ◌+◌, ◌^◌, ◌≤◌, ◌<◌, length, get_or};
ghost use Rattle.grammar.specs.Signs.{quote, text_byte};
ghost use Rattle.read_tag.specs.Runs.{Ran};
ghost use Rattle.read_tag.specs.Texts.{plain, Entered, Decodes, TextRead, StringRead};

use crate::entity::entity_code;
use crate::signs::{PlainString, PlainText};
use field::HEAD;
use field::tags::{ATTRIBUTE_STRING, TEXT};
use field::writer::{put_byte, put_bytes, put_head};
use text::runs::run_end;

// Where a run ends in the text, and in what is written.
#[derive(Clone, Copy)]
pub struct Run {
    pub end: usize,
    pub at: usize,
}

// The byte that an entity stands for, and the place behind `;`.
#[derive(Clone, Copy)]
pub struct Entity {
    pub code: u8,
    pub end: usize,
}

// The longest name of an entity.
const MAX_ENTITY: usize = 4;

// What a run stands in: text between tags, or a string in that quote.
#[derive(Clone, Copy)]
pub enum Around {
    Tags,
    Quotes(u8),
}

// Behind the `&` of an entity. Only as far as a name goes, so that a row of `&` is read in linear time. Out of line a row of `&lt;` takes 19.6 instructions
// a byte for 16.4.
#[inline(always)]
fn read_entity(text: &[u8], i: usize) -> Option<Entity>
    requires { i ≤ length text.now }
    ensures { Entered text.now i result }
{
    let n = text[i..]
        .iter()
        .take(MAX_ENTITY + 1)
        .position(|c| *c == b';')?;
    let code = entity_code(&text[i..i + n])?;
    Some(Entity {
        code,
        end: i + n + 1,
    })
}

// Behind the bytes at i, up to an entity or the end of the run.
fn plain_end(text: &[u8], i: usize, x: Around) -> usize
    requires { i ≤ length text.now }
    ensures { Ran (plain x) text.now i result }
{
    match x {
        Around::Tags => run_end(&PlainText, text, i),
        Around::Quotes(quote) => run_end(&PlainString { quote }, text, i),
    }
}

// A run from i on, up to the sign that ends it or the end of the text. None: no reading, whatever follows. Merged into its two readers: as one function
// components take 31.3 instructions a byte for 29.3, dense tags 43.6 for 42.4.
#[inline(always)]
fn decode(text: &[u8], i: usize, x: Around, out: &mut [u8], at: usize) -> Option<Run>
    requires { (i ≤ length text.now) × (at + length text.now < 2 ^ 63) }
    ensures { Decodes x text.now i out.old at out.new result }
{
    // No iterator: a turn writes a stretch and an entity's byte, and where the next begins only the entity says.
    let mut k = i;
    let mut a = at;
    loop {
        let e = plain_end(text, k, x);
        let b = put_bytes(out, a, &text[k..e]);
        let Some(b'&') = text.get(e) else {
            return Some(Run { end: e, at: b });
        };
        let entity = read_entity(text, e + 1)?;
        a = put_byte(out, b, entity.code);
        k = entity.end;
    }
}

// A text child from i on, as a field at `at`. The head is written last, when the length is known.
pub fn read_text(text: &[u8], i: usize, out: &mut [u8], at: usize) -> Option<Run>
    requires { (i < length text.now) × (text_byte (get_or text.now i 0) ≡ true) × (at + 3 + length text.now < 2 ^ 63) }
    ensures { TextRead text.now i out.old at out.new result }
{
    let run = decode(text, i, Around::Tags, out, at + HEAD)?;
    put_head(out, at, TEXT, run.at - (at + HEAD));
    Some(run)
}

// A string from i on, behind its quote q, as a field at `at`; it ends behind the quote that closes it.
pub fn read_string(text: &[u8], i: usize, q: u8, out: &mut [u8], at: usize) -> Option<Run>
    requires { (i ≤ length text.now) × (quote q ≡ true) × (at + 3 + length text.now < 2 ^ 63) }
    ensures { StringRead q text.now i out.old at out.new result }
{
    let run = decode(text, i, Around::Quotes(q), out, at + HEAD)?;
    text.get(run.end)?;
    put_head(out, at, ATTRIBUTE_STRING, run.at - (at + HEAD));
    Some(Run {
        end: run.end + 1,
        ..run
    })
}
