// The text of a JSX text child (jsx_text_to_str) and an attribute string of a call (normalize_lit_str). Both walk the lines
// and write each line as it comes, so that no text is held in between.
ghost use Rattle.std.specs.Prelude.{◌≡◌, false, ◌||◌, ◌+◌, ◌<◌, ◌≤◌, ◌^◌, ◌∷◌, [], length, take, drop};
ghost use Rattle.field.specs.Bytes.{pick, null?};
ghost use Rattle.field.specs.Put.{Wrote};
ghost use Rattle.text.specs.Text.{trimmed, escape_if, jsx_text_to_str, normalize_lit_str};
ghost use Rattle.text.specs.Lines.{starts_with_lf};
ghost use Rattle.text.specs.Runs.{all, indent, kept_line, spaced_line};

use crate::escape::put_escaped;
use crate::lines::{Lines, TextLine};
use crate::runs::{Class, is_run};
use crate::trim::{trim_end, trim_start};
use field::writer::{put_byte, put_bytes};

impl<'a> TextLine<'a> {
    // Without the white space that the text rule takes off.
    fn trimmed(self, last: bool) -> &'a [u8]
        ensures { result.now ≡ trimmed self.entry.has_before (self.entry.has_behind || last) self.entry.text.now }
    {
        let t = if self.has_before {
            trim_start(self.text)
        } else {
            self.text
        };
        if self.has_behind | last {
            trim_end(t)
        } else {
            t
        }
    }
}

// A flag chooses, here and in what calls this, since escape_if has it: the definition of the whole text is one for both.
fn put_text(out: &mut [u8], at: usize, s: &[u8], escape: bool) -> usize
    requires { at + length (escape_if escape s.now) < 2 ^ 63 }
    ensures { Wrote out.old at (escape_if escape s.now) out.new result }
{
    if escape {
        put_escaped(out, at, s)
    } else {
        put_bytes(out, at, s)
    }
}

// The space in front of a line that follows another.
fn put_space(out: &mut [u8], at: usize, later: bool) -> usize
    requires { at + 1 < 2 ^ 64 }
    ensures { Wrote out.old at (pick later (32 ∷ []) []) out.new result }
{
    if later { put_byte(out, at, b' ') } else { at }
}

// A line of the text rule: an empty one goes, and a space stands in front of one that follows text.
fn put_kept_line(out: &mut [u8], at: usize, s: &[u8], escape: bool, later: bool) -> usize
    requires { at + length (escape_if escape (kept_line later s.now)) < 2 ^ 63 }
    ensures { Wrote out.old at (escape_if escape (kept_line later s.now)) out.new result }
{
    if s.is_empty() {
        return at;
    }
    let a = put_space(out, at, later);
    put_text(out, a, s, escape)
}

// A space, or an LF.
struct Indent;

impl Class for Indent {
    ghost holds = { λ x b. indent b };

    #[tactic(auto, unfolding(crate::specs::Runs::indent))]
    fn has(&self, b: u8) -> bool {
        matches!(b, b' ' | b'\n')
    }
}

// Whether s is spaces and LFs alone, as most texts between tags are.
fn is_indent(s: &[u8]) -> bool
    ensures { result ≡ all indent s.now }
{
    is_run::<_, 8>(&Indent, s)
}

fn starts_with_lf(s: &[u8]) -> bool
    ensures { result ≡ starts_with_lf s.now }
{
    matches!(s, [b'\n', ..])
}

pub fn jsx_text_to_str(out: &mut [u8], at: usize, s: &[u8], escape: bool, last: bool) -> usize
    requires { at + length (jsx_text_to_str s.now escape last) < 2 ^ 63 }
    ensures { Wrote out.old at (jsx_text_to_str s.now escape last) out.new result }
{
    // the first line is empty, and the others are spaces: nothing stays
    if starts_with_lf(s) && is_indent(s) {
        return at;
    }
    let mut a = at;
    for line in Lines::new(s) {
        if !line.text.is_empty() {
            a = put_kept_line(out, a, line.trimmed(last), escape, at < a);
        }
    }
    a
}

fn is_blank_by_lines(s: &[u8], last: bool) -> bool
    ensures { result ≡ null? (jsx_text_to_str s.now false last) }
{
    Lines::new(s).all(|line| line.trimmed(last).is_empty())
}

// Whether the text rule leaves nothing.
pub fn is_blank(s: &[u8], last: bool) -> bool
    ensures { result ≡ null? (jsx_text_to_str s.now false last) }
{
    match s {
        [] => true,
        // the first line keeps its front, so that a letter there stays
        [b'!'..=0x7F, ..] => false,
        [b'\n', ..] if is_indent(s) => true,
        _ => is_blank_by_lines(s, last),
    }
}

// A line of an attribute string: kept as it is, with a space in front of each but the first.
fn put_spaced_line(out: &mut [u8], at: usize, s: &[u8], later: bool) -> usize
    requires { at + length (spaced_line later s.now) < 2 ^ 63 }
    ensures { Wrote out.old at (spaced_line later s.now) out.new result }
{
    let a = put_space(out, at, later);
    put_bytes(out, a, s)
}

pub fn normalize_lit_str(out: &mut [u8], at: usize, s: &[u8]) -> usize
    requires { at + length (normalize_lit_str s.now) < 2 ^ 63 }
    ensures { Wrote out.old at (normalize_lit_str s.now) out.new result }
{
    let mut a = at;
    for line in Lines::new(s) {
        a = put_spaced_line(out, a, trim_start(line.text), line.has_before);
    }
    a
}
