// Numbers of four bytes where they stand: one in front of each record of a row, and one in front of each call of a page out, which nest. Calls are
// walked flat, with no stack: a field that holds fields is entered behind its front, any other is passed over. The bytes may be any; only who
// raises numbers has checked them.
ghost use Rattle.std.specs.Prelude.{◌≡◌, ◌+◌, ◌≤◌, ℕ, List, length};
ghost use Rattle.field.specs.Bytes.{Bytes};
ghost use Rattle.field.specs.Row.{bytes, read};
ghost use Rattle.refusal.specs.Refusal.{Fine};
ghost use Rattle.outs.specs.Held.{read_out};
ghost use Rattle.outs.specs.PageOut.{check_page_out};
ghost use Rattle.outs.specs.Templates.{check_templates};
ghost use Rattle.outs.specs.declared.Kind.TheVariants.{New};
ghost use Rattle.catalogue.specs.Catalogue.{four};
ghost use Rattle.catalogue.specs.Numbers.{changed, raised};
ghost use Rattle.catalogue.specs.Judged.{recorded_numbers};
ghost use Rattle.catalogue_calls.specs.Flat.{calls_in, raised_at};
ghost use Rattle.catalogue_calls.specs.Next.{NextNumber, NextCall};

use field::reader::{Fields, read_header};
use field::tags::TEMPLATE;
use field::writer::put_four;
use field::{HEAD, NUMBER_WIDTH};
use outs::order::front_of;
use page::number::number_in;

// Numbers front to back: the first, and the bytes behind it in which the others stand.
pub trait Numbers {
    ghost numbers: { Bytes → List ℕ };

    fn next<'a>(s: &'a [u8]) -> Option<(u32, &'a [u8])>
        ensures { NextNumber numbers s.now result };
}

// Of fewer than four bytes, which no checked number has, the number that is there.
fn four_in(s: &[u8]) -> u32
    ensures { result ≡ four s.now }
{
    match s.first_chunk::<4>() {
        Some(number) => u32::from_be_bytes(*number),
        None => number_in(s) as u32,
    }
}

// Where the number of the first call begins.
fn next_call(s: &[u8]) -> Option<usize>
    ensures { NextCall s.now result }
{
    let mut rest = s;
    // into a field that holds fields, or over one that does not: no iterator over fields goes so
    while let Some(h) = read_header(rest) {
        match front_of(h.tag, NUMBER_WIDTH) {
            Some(NUMBER_WIDTH) => return Some(s.len() - rest.len() + HEAD),
            Some(_) => rest = &rest[HEAD..],
            None => rest = &rest[h.end..],
        }
    }
    None
}

pub struct Records;

impl Numbers for Records {
    ghost numbers = { λ s. recorded_numbers (read s) };

    fn next<'a>(s: &'a [u8]) -> Option<(u32, &'a [u8])> {
        let mut fields = Fields(s);
        // no `for`: what lies behind the record is answered too
        while let Some(field) = fields.next() {
            if field.tag == TEMPLATE {
                return Some((four_in(field.body), fields.0));
            }
        }
        None
    }
}

pub struct Calls;

impl Numbers for Calls {
    ghost numbers = { calls_in };

    fn next<'a>(s: &'a [u8]) -> Option<(u32, &'a [u8])> {
        let at = next_call(s)?;
        let behind = s.len().min(at + NUMBER_WIDTH);
        Some((four_in(&s[at..]), &s[behind..]))
    }
}

// The number at a place goes so much further, and begins again beyond 32 bits.
fn raise(s: &mut [u8], at: usize, by: u32)
    requires { at + 4 ≤ length s.old }
    ensures { s.new ≡ raised_at at by s.old }
{
    let number = four_in(&s[at..]).wrapping_add(by);
    put_four(s, at, number as usize);
}

pub fn raise_records(s: &mut [u8], by: u32)
    requires { check_templates New s.old ≡ Fine }
    ensures { s.new ≡ bytes (changed (raised 0x84 by) (read s.old)) }
{
    let mut at = 0;
    // by places, since the bytes that are walked are changed
    while let Some(h) = read_header(&s[at..]) {
        raise(s, at + HEAD, by);
        at += h.end;
    }
}

pub fn raise_calls(s: &mut [u8], by: u32)
    requires { check_page_out 4 s.old ≡ Fine }
    ensures { s.new ≡ bytes (changed (raised 0x90 by) (read_out 4 s.old)) }
{
    let mut at = 0;
    // by places, as raise_records
    while let Some(number) = next_call(&s[at..]) {
        raise(s, at + number, by);
        at += number + NUMBER_WIDTH;
    }
}
