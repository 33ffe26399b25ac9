// The whole answer: the check of the templates, then that of the order, then the HTML.
ghost use Rattle.std.specs.Prelude.{◌≡◌, ◌≤◌, length};
ghost use Rattle.field.specs.Row.{read};
ghost use Rattle.refusal.specs.Refusal.{Fine};
ghost use Rattle.outs.specs.Templates.{check_templates};
ghost use Rattle.outs.specs.declared.Kind.TheVariants.{New};
ghost use Rattle.fill.specs.Order.{read_order, check_order};
ghost use Rattle.fill.specs.Html.{html_of};
ghost use Rattle.fill.specs.Answer.{outcome, Answered};
ghost use Rattle.fill.specs.Located.{FillsIf};
ghost use Rattle.fill.specs.Indexed.{HasRoom};
ghost use Rattle.fill.specs.Attempt.{Attempts, unfilled_number};
ghost use Rattle.fill.specs.declared.answer.Unfilled.TheVariants as U;

use crate::html::write_order;
use crate::index::Index;
use field::reader::body;
use outs::Kind;
use outs::templates::check_templates;
use refusal::{Refusal, refuse_unless};

// It goes to C by value: a number, 0 for none refused, and no Result.
#[repr(C)]
#[derive(Clone, Copy)]
pub struct Filled {
    pub number: u32,
    pub html_bytes: usize,
}

// Why nothing is filled: what is refused of the inputs or for want of room, or that the fillings do not fit.
#[derive(Clone, Copy)]
pub enum Unfilled {
    Refused(Refusal),
    Unfitting,
}

impl From<Unfilled> for u32 {
    ghost from_gives = { λ e n. n ≡ unfilled_number e };

    fn from(e: Unfilled) -> u32 {
        match e {
            Unfilled::Refused(r) => u32::from(r),
            Unfilled::Unfitting => 18,
        }
    }
}

impl From<Refusal> for Unfilled {
    ghost from_gives = { λ r e. e ≡ U.Refused r };

    fn from(r: Refusal) -> Unfilled {
        Unfilled::Refused(r)
    }
}

// A small order, and the records that it asks for at the most: each 85 takes seven bytes or more. A large one has at most 65,538 bytes, as one field.
const SMALL_ORDER: usize = 448;

const FEW: usize = 64;

const MANY: usize = 9362;

// The check of the order, and the length of the HTML, by an index with room for so many numbers; None, where the order has none. It is written as far
// as it fits.
fn write_by<const N: usize>(
    templates: &[u8],
    order: &[u8],
    out: &mut [u8],
) -> Result<Option<usize>, Refusal>
    requires { (check_templates New templates.now ≡ Fine) × HasRoom order.now N × (N ≤ 9362) }
    ensures { FillsIf (check_order (read_order order.now)) (html_of (read templates.now) (read_order order.now)) out.old out.new result }
{
    let mut index = Index::<N>::new();
    let Some(()) = index.index(templates, order)? else {
        return Ok(None);
    };
    Ok(write_order(&index.entries(templates), body(order), out, 0, &mut 0))
}

// Not inlined: a small order does without the 110 KB of stack.
#[inline(never)]
fn write_large(templates: &[u8], order: &[u8], out: &mut [u8]) -> Result<Option<usize>, Refusal>
    requires { check_templates New templates.now ≡ Fine }
    ensures { FillsIf (check_order (read_order order.now)) (html_of (read templates.now) (read_order order.now)) out.old out.new result }
{
    write_by::<MANY>(templates, order, out)
}

fn write(templates: &[u8], order: &[u8], out: &mut [u8]) -> Result<Option<usize>, Refusal>
    requires { check_templates New templates.now ≡ Fine }
    ensures { FillsIf (check_order (read_order order.now)) (html_of (read templates.now) (read_order order.now)) out.old out.new result }
{
    if order.len() <= SMALL_ORDER {
        write_by::<FEW>(templates, order, out)
    } else {
        write_large(templates, order, out)
    }
}

// Where nothing is filled, what the out holds is left to the caller.
fn try_fill(templates: &[u8], order: &[u8], html_out: &mut [u8]) -> Result<Filled, Unfilled>
    ensures { Attempts (outcome templates.now order.now (length html_out.old)) html_out.old result html_out.new }
{
    check_templates(templates, Kind::New)?;
    let written = write(templates, order, html_out)?;
    let html_bytes = written.ok_or(Unfilled::Unfitting)?;
    refuse_unless(html_bytes <= html_out.len(), Refusal::PageTooSmall)?;
    Ok(Filled {
        number: 0,
        html_bytes,
    })
}

pub fn fill(templates: &[u8], order: &[u8], html_out: &mut [u8]) -> Filled
    ensures { Answered (outcome templates.now order.now (length html_out.old)) html_out.old result.number result.html_bytes html_out.new }
{
    match try_fill(templates, order, html_out) {
        Ok(filled) => filled,
        Err(e) => {
            html_out.fill(0);
            Filled {
                number: u32::from(e),
                html_bytes: 0,
            }
        }
    }
}
