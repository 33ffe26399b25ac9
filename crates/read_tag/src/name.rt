// Names: where they end, which field a name becomes, that field, and two names compared.
ghost use Rattle.std.specs.Prelude.{◌≡◌, ◌+◌, ◌*◌, ◌≤◌, ◌<◌, ◌^◌, length};
ghost use Rattle.std.specs.Iterator.{at_most};
ghost use Rattle.grammar.specs.Signs.{separator};
ghost use Rattle.grammar.specs.Syntax.{no_hyphen};
ghost use Rattle.read_tag.specs.Shapes.{shape_tag};
ghost use Rattle.read_tag.specs.Names.{PartAt, GivesPart, parts_left, Scanned, LetterAt, NameAt, PartsPut, NamePut, NamesCompared};

use crate::known::trim_end;
use crate::signs::{NameBytes, is_letter, skip_spaces};
use field::HEAD;
use field::tags::{IDENT, MEMBER, NAMESPACED_NAME};
use field::writer::{put_field, put_head};
use names::same_bytes;
use page::name::{MAX_MEMBERS, MAX_NAME};
use text::runs::run_end;

// A part of a name: its bytes; the sign behind it, if one parts it from another; and the place behind that, where the next may begin, or behind
// the name. White space in between is passed.
#[derive(Clone, Copy)]
pub struct NamePart<'a> {
    pub word: &'a [u8],
    pub sign: Option<u8>,
    pub next: usize,
}

// A name that was read: the tag of its field, and the place behind it and the white space that follows.
#[derive(Clone, Copy)]
pub struct ScannedName {
    pub tag: u8,
    pub end: usize,
}

#[tactic(auto, unfolding(grammar::specs::Signs::separator))]
fn is_separator(c: u8) -> bool
    ensures { result ≡ separator c }
{
    matches!(c, b'.' | b':')
}

// The part whose first byte stands at i.
fn part_at(text: &[u8], i: usize) -> NamePart<'_>
    requires { i < length text.now }
    ensures { PartAt text.now i result }
{
    let end = run_end(&NameBytes, text, i + 1);
    let k = skip_spaces(text, end);
    let word = &text[i..end];
    match text.get(k) {
        Some(sign) if is_separator(*sign) => NamePart {
            word,
            sign: Some(*sign),
            next: skip_spaces(text, k + 1),
        },
        _ => NamePart {
            word,
            sign: None,
            next: k,
        },
    }
}

// The parts of a name one after the other, by the place where the next begins, if one is left. None comes too where the text ends there.
#[derive(Clone, Copy)]
struct NameParts<'a> {
    text: &'a [u8],
    at: Option<usize>,
}

impl<'a> Iterator for NameParts<'a> {
    type Item = NamePart<'a>;

    ghost next_gives = { GivesPart };

    ghost remaining = { λ parts. at_most (parts_left parts) };

    fn next(&mut self) -> Option<NamePart<'a>> {
        let i = self.at?;
        if self.text.len() <= i {
            return None;
        }
        let part = part_at(self.text, i);
        self.at = part.sign.and(Some(part.next));
        Some(part)
    }
}

fn parts_at(text: &[u8], i: usize) -> NameParts<'_>
    ensures { (result.text.now ≡ text.now) × (result.at ≡ Some i) }
{
    NameParts { text, at: Some(i) }
}

// By the count of parts, whether all have at most 128 bytes, none a hyphen, and points alone part them. None: no name of 01.
#[tactic(auto, unfolding(crate::specs::Shapes::shape_tag, grammar::specs::Signs::choose))]
pub fn shape_of(parts: usize, short: bool, plain: bool, points: bool) -> Option<u8>
    ensures { result ≡ shape_tag parts short plain points }
{
    match parts {
        _ if !short => None,
        1 => Some(IDENT),
        ..=MAX_MEMBERS if points & plain => Some(MEMBER),
        2 if !points => Some(NAMESPACED_NAME),
        _ => None,
    }
}

// By `contains`, which is a call that LLVM does not inline, a part of one letter takes 87 instructions for 73.
fn has_no_hyphen(s: &[u8]) -> bool
    ensures { result ≡ no_hyphen s.now }
{
    s.iter().all(|c| *c != b'-')
}

// The name whose first letter stands at i, part by part. The letter behind a sign is asked for before the next part is read: what begins with none is
// not read to its end, so 32,000 digits behind a point take 651 instructions for 672,692.
#[inline(never)]
fn scan_parts(text: &[u8], i: usize) -> Option<ScannedName>
    requires { LetterAt text.now i }
    ensures { Scanned text.now i result }
{
    let mut parts: usize = 0;
    let mut short = true;
    let mut plain = true;
    let mut points = true;
    for part in parts_at(text, i) {
        parts += 1;
        short &= part.word.len() <= MAX_NAME;
        plain &= has_no_hyphen(part.word);
        let Some(sign) = part.sign else {
            let tag = shape_of(parts, short, plain, points)?;
            return Some(ScannedName {
                tag,
                end: part.next,
            });
        };
        points &= sign == b'.';
        if !is_letter(*text.get(part.next)?) {
            return None;
        }
    }
    None
}

// The same. Most names are one identifier, in which hyphens need not be looked for: by scan_parts alone components take 36.2 instructions a byte for
// 33.2, and a row of `b` as attributes 163.5 for 132.5: 9 % more and over, where a set may take 3 %. Merged into the pass, as put_name is, and what reads
// several parts is not: as LLVM has it components take 33.4 for 31.9, dense tags 45.6 for 44.5.
#[inline(always)]
pub fn scan_name(text: &[u8], i: usize) -> Option<ScannedName>
    requires { LetterAt text.now i }
    ensures { Scanned text.now i result }
{
    let part = part_at(text, i);
    if part.sign.is_some() {
        return scan_parts(text, i);
    }
    if MAX_NAME < part.word.len() {
        return None;
    }
    Some(ScannedName {
        tag: IDENT,
        end: part.next,
    })
}

// A 40 for each part of the name at i. A part of n bytes takes n + 3, so at most four for each byte of the text.
#[inline(never)]
fn put_parts(text: &[u8], i: usize, out: &mut [u8], at: usize) -> usize
    requires { NameAt text.now i × (at + 4 * length text.now < 2 ^ 63) }
    ensures { PartsPut text.now i out.old at out.new result }
{
    let mut o = at;
    for part in parts_at(text, i) {
        o = put_field(out, o, IDENT, part.word);
    }
    o
}

// The field of the name from i to end, white space apart. One identifier is not read again: its end is found from behind. What holds parts gets
// its length when they are written.
#[inline(always)]
pub fn put_name(text: &[u8], i: usize, tag: u8, end: usize, out: &mut [u8], at: usize) -> usize
    requires { NameAt text.now i × (i ≤ end) × (end ≤ length text.now) × (at + 8 * length text.now < 2 ^ 63) }
    ensures { NamePut text.now i tag end out.old at out.new result }
{
    if tag == IDENT {
        put_field(out, at, IDENT, trim_end(&text[i..end]))
    } else {
        let o = put_parts(text, i, out, at + HEAD);
        put_head(out, at, tag, o - (at + HEAD));
        o
    }
}

// The names at i and j are the same by kind and parts, white space apart.
pub fn same_names(text: &[u8], i: usize, j: usize) -> bool
    requires { NameAt text.now i × NameAt text.now j }
    ensures { NamesCompared text.now i j result }
{
    let mut pairs = parts_at(text, i).zip(parts_at(text, j));
    pairs.all(|(part, other)| same_bytes(part.word, other.word) && part.sign == other.sign)
}
