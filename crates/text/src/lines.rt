// str::lines.
ghost use Rattle.std.specs.Prelude.{◌≡◌, ◌-◌, ◌<◌, length};
ghost use Rattle.text.specs.Lines.{line_at, GivesLine};
ghost use Rattle.text.specs.Runs.{not_lf};
ghost use Rattle.std.specs.Iterator.{at_most};

use crate::runs::{Class, long_run_end};

// Where a line ends, and where the next one begins.
#[derive(Clone, Copy)]
pub struct Line {
    pub end: usize,
    pub next: usize,
}

// The bytes that end no line.
struct NotLf;

impl Class for NotLf {
    ghost holds = { λ x b. not_lf b };

    fn has(&self, b: u8) -> bool {
        b != b'\n'
    }
}

// The line that begins at a place of a text.
#[inline(never)]
fn line_at(s: &[u8], at: usize) -> Line
    requires { at < length s.now }
    ensures { result ≡ line_at s.now at }
{
    // the first line of a text that is laid out over several lines is empty
    if s[at] == b'\n' {
        return Line {
            end: at,
            next: at + 1,
        };
    }
    let lf = long_run_end::<_, 16>(&NotLf, s, at);
    if lf == s.len() {
        Line { end: lf, next: lf }
    } else if s[lf - 1] == b'\r' {
        Line {
            end: lf - 1,
            next: lf + 1,
        }
    } else {
        Line {
            end: lf,
            next: lf + 1,
        }
    }
}

// At any place, also behind the end: the iterator goes through all lines from the front, and gives no line's places.
pub fn read_line(s: &[u8], at: usize) -> Line
    ensures { result ≡ line_at s.now at }
{
    if s.len() <= at {
        Line { end: at, next: at }
    } else {
        line_at(s, at)
    }
}

// A line without its end, and whether others stand before and behind it.
#[derive(Clone, Copy)]
pub struct TextLine<'a> {
    pub text: &'a [u8],
    pub has_before: bool,
    pub has_behind: bool,
}

// The lines of a text, as 01 has it: "a thin line reader holding the text slice and a place", where the next line begins.
#[derive(Clone, Copy)]
pub struct Lines<'a> {
    text: &'a [u8],
    place: usize,
}

impl<'a> Lines<'a> {
    pub fn new(text: &'a [u8]) -> Lines<'a>
        ensures { (result.text.now ≡ text.now) × (result.place ≡ 0) }
    {
        Lines { text, place: 0 }
    }
}

impl<'a> Iterator for Lines<'a> {
    type Item = TextLine<'a>;

    ghost next_gives = { GivesLine };

    ghost remaining = { λ x. at_most (length x.text.now - x.place) };

    // Inlined, so that the line needs no memory: that costs 8 to 12 % less.
    #[inline(always)]
    fn next(&mut self) -> Option<TextLine<'a>> {
        let s = self.text;
        let at = self.place;
        if s.len() <= at {
            return None;
        }
        let line = line_at(s, at);
        self.place = line.next;
        Some(TextLine {
            text: &s[at..line.end],
            has_before: 0 < at,
            has_behind: line.next < s.len(),
        })
    }
}
