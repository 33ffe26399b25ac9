// One stored line: the call that it holds is made again, and the answer and every lent byte are compared with what is stored.
use crate::words::{Stored, is_decimal, number, spells, unhex};
use jsx_precompile::jsx_precompile_transform;
use std::fmt;
use transform::Answer;

// The refusal after which scratch is left as it was.
const SCRATCH_TOO_SMALL: u32 = 1;

// The first thing that is not as stored.
#[derive(Clone, Copy)]
pub enum Difference {
    Line,
    Number,
    TemplatesBytes,
    PageBytes,
    Templates,
    TemplatesOut,
    PageOut,
    Scratch,
}

impl fmt::Display for Difference {
    fn fmt<W: fmt::Write>(&self, f: &mut fmt::Formatter<W>) -> fmt::Result {
        match self {
            Difference::Line => write!(f, "the line cannot be read"),
            Difference::Number => write!(f, "the number"),
            Difference::TemplatesBytes => write!(f, "templates bytes"),
            Difference::PageBytes => write!(f, "page bytes"),
            Difference::Templates => write!(f, "templates"),
            Difference::TemplatesOut => write!(f, "templates out"),
            Difference::PageOut => write!(f, "page out"),
            Difference::Scratch => write!(f, "scratch"),
        }
    }
}

// After so many bytes `before` begins again.
const PERIOD: usize = 251;

// What the lent bytes hold before a call: no zeros, so that it is seen what was cleared.
fn before(i: usize) -> u8 {
    (i % PERIOD) as u8 + 1
}

// By periods, in which no byte needs its own division: the stored answers take 1.6 billion instructions for 3.9.
fn fill(b: &mut [u8]) {
    for part in b.chunks_mut(PERIOD) {
        for (i, x) in part.iter_mut().enumerate() {
            *x = before(i);
        }
    }
}

// Whether b is as before the call, from that place on.
fn is_kept(b: &[u8], from: usize) -> bool {
    b.iter()
        .enumerate()
        .skip(from)
        .all(|(i, x)| *x == before(i))
}

fn is_cleared(b: &[u8]) -> bool {
    b.iter().all(|x| *x == 0)
}

// Whether an out holds the n bytes that w spells; behind them it is kept after 0, and after another number all of it is zero.
fn is_out(w: &[u8], out: &[u8], n: usize, answer: u32) -> bool {
    let left = if answer == 0 {
        is_kept(out, n)
    } else {
        is_cleared(out)
    };
    left && out.get(..n).is_some_and(|b| spells(w, b))
}

// Whether scratch is zero, and where it was too short as it was.
fn is_scratch(scratch: &[u8], answer: u32) -> bool {
    if answer == SCRATCH_TOO_SMALL {
        is_kept(scratch, 0)
    } else {
        is_cleared(scratch)
    }
}

// page's refuse_unless is over page's refusals, and this program knows no more of the library than what hosts call.
fn expect(holds: bool, d: Difference) -> Result<(), Difference> {
    if holds { Ok(()) } else { Err(d) }
}

fn compare_answer(stored: &Stored<'_>, a: Answer) -> Result<(), Difference> {
    expect(is_decimal(stored.number, a.number), Difference::Number)?;
    expect(
        is_decimal(stored.templates_bytes, a.templates_bytes),
        Difference::TemplatesBytes,
    )?;
    expect(
        is_decimal(stored.page_bytes, a.page_bytes),
        Difference::PageBytes,
    )?;
    expect(
        is_decimal(stored.templates, a.templates),
        Difference::Templates,
    )
}

fn compare_lent(
    stored: &Stored<'_>,
    a: Answer,
    scratch: &[u8],
    templates: &[u8],
    page: &[u8],
) -> Result<(), Difference> {
    expect(
        is_out(stored.templates_out, templates, a.templates_bytes, a.number),
        Difference::TemplatesOut,
    )?;
    expect(
        is_out(stored.page_out, page, a.page_bytes, a.number),
        Difference::PageOut,
    )?;
    expect(is_scratch(scratch, a.number), Difference::Scratch)
}

fn call<'a>(
    stored: &Stored<'_>,
    input: &'a [u8],
    options: &'a [u8],
    scratch: &mut [u8],
    templates: &mut [u8],
    page: &mut [u8],
) -> Result<(), Difference> {
    fill(scratch);
    fill(templates);
    fill(page);
    let a = jsx_precompile_transform(input, options, scratch, templates, page);
    compare_answer(stored, a)?;
    compare_lent(stored, a, scratch, templates, page)
}

// The first difference of a line. Page and options are put to the fronts of input and options, and the lent parts are as long as the line
// says. The five stay apart: the borrow checker has no proof yet for parts of a struct that are lent, two at once, from behind a reference.
pub fn replay(
    stored: &Stored<'_>,
    input: &mut [u8],
    options: &mut [u8],
    scratch: &mut [u8],
    templates: &mut [u8],
    page: &mut [u8],
) -> Result<(), Difference> {
    let i = unhex(stored.page, input).ok_or(Difference::Line)?;
    let o = unhex(stored.options, options).ok_or(Difference::Line)?;
    let s = number(stored.scratch_room, scratch.len()).ok_or(Difference::Line)?;
    let t = number(stored.templates_room, templates.len()).ok_or(Difference::Line)?;
    let p = number(stored.page_room, page.len()).ok_or(Difference::Line)?;
    call(
        stored,
        &input[..i],
        &options[..o],
        &mut scratch[..s],
        &mut templates[..t],
        &mut page[..p],
    )
}
