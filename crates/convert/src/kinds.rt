// The kinds of gaps from the strings before them, joined.
ghost use Rattle.std.specs.Prelude.{◌≡◌, ◌+◌, ◌<◌, ◌^◌, [], ◌∷◌, true, length};
ghost use Rattle.convert.specs.Kinds.{passed, all_passed};
ghost use Rattle.convert.specs.Flat.{plain, EndsRun, KindIs, NextKind, Marks, kind_marks, same_kinds};
ghost use Rattle.convert.specs.declared.kinds.Markup.TheVariants as M;

use field::reader::Fields;
use field::writer::put_byte;

// Where a text leaves us: outside tags; right behind a `<`; in an opening tag, the last byte no space, or a space; in a closing tag; or its signs
// are not in turn.
#[derive(Clone, Copy)]
pub enum Markup {
    Outside,
    Entered,
    Opening,
    Spaced,
    Closing,
    Crossed,
}

#[tactic(auto, unfolding(crate::specs::Kinds::passed))]
fn pass(m: Markup, c: u8) -> Markup
    ensures { result ≡ passed m c }
{
    match (m, c) {
        (Markup::Crossed, _) | (Markup::Outside, b'>') => Markup::Crossed,
        (Markup::Outside, b'<') => Markup::Entered,
        (Markup::Outside, _) => Markup::Outside,
        (_, b'<') => Markup::Crossed,
        (_, b'>') => Markup::Outside,
        (Markup::Entered, b'/') => Markup::Closing,
        (Markup::Closing, _) => Markup::Closing,
        (_, b' ') => Markup::Spaced,
        _ => Markup::Opening,
    }
}

// Whether neither `<` nor `>` is among these. All are compared, whatever the first ones are: so they are compared side by side.
fn is_plain(block: &[u8]) -> bool
    ensures { result ≡ plain block.now }
{
    let mut is = true;
    for c in block {
        is &= (*c != b'<') & (*c != b'>');
    }
    is
}

fn is_plain_byte(c: u8) -> bool
    ensures { result ≡ plain (c ∷ []) }
{
    (c != b'<') & (c != b'>')
}

// The last byte of the run without signs that c and the bytes behind it begin with, and what is left behind the run. Of a run the last byte alone
// counts, unless it stands right behind a `<`. By blocks alone, runs of four to seven bytes took 22 instructions a byte for 15.
#[inline(always)]
fn run_from(c: u8, s: &[u8]) -> (u8, &[u8])
    requires { plain (c ∷ []) ≡ true }
    ensures { EndsRun c s.now result.0 result.1.now }
{
    let mut last = c;
    let mut left = s;
    // no `for` over chunks: what is left is answered, and a block that is not plain stays in front of it
    while let Some((block, more)) = left.split_first_chunk::<8>() {
        if !is_plain(block) {
            break;
        }
        last = block[7];
        left = more;
    }
    while let [d, more @ ..] = left {
        if !is_plain_byte(*d) {
            break;
        }
        last = *d;
        left = more;
    }
    (last, left)
}

// Run by run, sign by sign. Right behind a `<` one byte is passed, since it says which tag it is.
pub fn pass_all(m: Markup, s: &[u8]) -> Markup
    ensures { result ≡ all_passed m s.now }
{
    let mut q = m;
    let mut left = s;
    // by what is left, since a turn may pass many bytes
    while let [c, rest @ ..] = left {
        let (last, behind) = match q {
            Markup::Entered => (*c, rest),
            _ if is_plain_byte(*c) => run_from(*c, rest),
            _ => (*c, rest),
        };
        q = pass(q, last);
        left = behind;
    }
    q
}

// The byte of a gap's kind in an 84.
#[tactic(auto, unfolding(crate::specs::Flat::kind_number))]
fn kind_of(m: Markup) -> Option<u8>
    ensures { KindIs result m }
{
    match m {
        Markup::Outside => Some(2),
        Markup::Spaced => Some(1),
        Markup::Entered | Markup::Opening | Markup::Closing | Markup::Crossed => None,
    }
}

// The gaps of a row: the strings that are left, and where those before them leave us.
#[derive(Clone, Copy)]
struct Gaps<'a> {
    strings: Fields<'a>,
    markup: Markup,
}

impl<'a> Gaps<'a> {
    fn new(s: &'a [u8]) -> Gaps<'a>
        ensures { (result.strings.0.now ≡ s.now) × (result.markup ≡ M.Outside) }
    {
        Gaps {
            strings: Fields(s),
            markup: Markup::Outside,
        }
    }

    // The kind of the next. Where no string is left, the kind stays: so nobody needs to know how many strings there are. Of an Iterator, which ends
    // there, both loops would have to know.
    fn next_kind(&mut self) -> Option<u8>
        ensures { NextKind self.old result self.new }
    {
        if let Some(string) = self.strings.next() {
            self.markup = pass_all(self.markup, string.body);
        }
        kind_of(self.markup)
    }
}

// The kinds behind the first strings of a row: the place behind them, where every gap is of one.
pub fn put_kinds(out: &mut [u8], at: usize, s: &[u8], gaps: usize) -> Option<usize>
    requires { at + gaps < 2 ^ 64 }
    ensures { Marks (kind_marks gaps M.Outside s.now) out.old at out.new result }
{
    let mut left = Gaps::new(s);
    let mut a = at;
    for _ in 0..gaps {
        a = put_byte(out, a, left.next_kind()?);
    }
    Some(a)
}

// Whether the kinds of a record are those that its strings give. By `all` the test of a kind would be what steps over the gaps.
pub fn are_kinds(kinds: &[u8], s: &[u8]) -> bool
    ensures { result ≡ same_kinds kinds.now (kind_marks (length kinds.now) M.Outside s.now) }
{
    let mut left = Gaps::new(s);
    for k in kinds {
        if left.next_kind() != Some(*k) {
            return false;
        }
    }
    true
}
