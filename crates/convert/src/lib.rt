// Templates out and page out from the old form into the new and back (document 02, A7). Both are checked first, by `outs`; calls are renumbered by
// `renumber`. What is written, and every byte lent, is what specs/Convert.antt says.
#![tactic(auto)]

ghost use Rattle.std.specs.Prelude.{◌≡◌, length};
ghost use Rattle.convert.specs.Convert.{upgraded, downgraded};
ghost use Rattle.convert.specs.Flat.{other, width, turned, unconverted_number, Attempts, Converts};
ghost use Rattle.convert.specs.declared.Unconverted.TheVariants as U;

mod kinds;
mod templates;

use field::{NUMBER_WIDTH, OLD_NUMBER_WIDTH};
pub use kinds::{Markup, are_kinds};
use outs::Kind;
use outs::page_out::check_page_out;
use outs::templates::check_templates;
use refusal::{Refusal, refuse_unless};
use renumber::renumber;
use templates::rewrite_templates;

// It goes to C by value: a number, 0 for none refused, and no Result.
#[repr(C)]
#[derive(Clone, Copy)]
pub struct Converted {
    pub number: u32,
    pub templates_bytes: usize,
    pub page_bytes: usize,
}

// Why nothing is converted: what is refused of the inputs or of what is written, or that the other form cannot say it.
#[derive(Clone, Copy)]
pub enum Unconverted {
    Refused(Refusal),
    Unsayable,
}

impl From<Unconverted> for u32 {
    ghost from_gives = { λ e n. n ≡ unconverted_number e };

    fn from(e: Unconverted) -> u32 {
        match e {
            Unconverted::Refused(r) => u32::from(r),
            Unconverted::Unsayable => 17,
        }
    }
}

impl From<Refusal> for Unconverted {
    ghost from_gives = { λ r e. e ≡ U.Refused r };

    fn from(r: Refusal) -> Unconverted {
        Unconverted::Refused(r)
    }
}

fn other(form: Kind) -> Kind
    ensures { result ≡ other form }
{
    match form {
        Kind::Old => Kind::New,
        Kind::New => Kind::Old,
    }
}

// How many bytes the number of a call has.
fn width(form: Kind) -> usize
    ensures { result ≡ width form }
{
    match form {
        Kind::Old => OLD_NUMBER_WIDTH,
        Kind::New => NUMBER_WIDTH,
    }
}

// From one form into the other. Where nothing is converted, what the outs hold is left to the caller. The four buffers come one by one, as a C
// program lends them.
fn convert(
    from: Kind,
    templates: &[u8],
    page: &[u8],
    templates_out: &mut [u8],
    page_out: &mut [u8],
) -> Result<Converted, Unconverted>
    ensures { Attempts (turned from templates.now page.now (length templates_out.old) (length page_out.old)) templates_out.old page_out.old result templates_out.new page_out.new }
{
    check_templates(templates, from)?;
    check_page_out(page, width(from))?;
    let x = rewrite_templates(templates, from, templates_out).ok_or(Unconverted::Unsayable)?;
    let y = renumber(page, width(from), width(other(from)), page_out);
    if y.wide {
        return Err(Unconverted::Unsayable);
    }
    refuse_unless(!(x.long | y.long), Refusal::OutputTooLong)?;
    refuse_unless(x.place <= templates_out.len(), Refusal::TemplatesTooSmall)?;
    refuse_unless(y.bytes <= page_out.len(), Refusal::PageTooSmall)?;
    Ok(Converted {
        number: 0,
        templates_bytes: x.place,
        page_bytes: y.bytes,
    })
}

// The same as it is answered: a refusal is its number, and zeros.
fn answer(
    from: Kind,
    templates: &[u8],
    page: &[u8],
    templates_out: &mut [u8],
    page_out: &mut [u8],
) -> Converted
    ensures { Converts (turned from templates.now page.now (length templates_out.old) (length page_out.old)) templates_out.old page_out.old result templates_out.new page_out.new }
{
    match convert(from, templates, page, templates_out, page_out) {
        Ok(converted) => converted,
        Err(e) => {
            templates_out.fill(0);
            page_out.fill(0);
            Converted {
                number: u32::from(e),
                templates_bytes: 0,
                page_bytes: 0,
            }
        }
    }
}

// Up: 84s from 80s, numbers of four bytes from two.
pub fn upgrade(
    templates: &[u8],
    page: &[u8],
    templates_out: &mut [u8],
    page_out: &mut [u8],
) -> Converted
    ensures { Converts (upgraded templates.now page.now (length templates_out.old) (length page_out.old)) templates_out.old page_out.old result templates_out.new page_out.new }
{
    answer(Kind::Old, templates, page, templates_out, page_out)
}

// Down: 80s from 84s, numbers of two bytes from four.
pub fn downgrade(
    templates: &[u8],
    page: &[u8],
    templates_out: &mut [u8],
    page_out: &mut [u8],
) -> Converted
    ensures { Converts (downgraded templates.now page.now (length templates_out.old) (length page_out.old)) templates_out.old page_out.old result templates_out.new page_out.new }
{
    answer(Kind::New, templates, page, templates_out, page_out)
}
