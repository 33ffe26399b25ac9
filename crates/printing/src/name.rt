// Members, templates' names and literals.
ghost use Rattle.std.specs.Prelude.{◌≡◌, ◌+◌, ◌<◌, ◌^◌, length, ◌∷◌, ◌++◌};
ghost use Rattle.field.specs.Put.{Wrote};
ghost use Rattle.field.specs.Bytes.{ascii, pick};
ghost use Rattle.field.specs.Row.{read};
ghost use Rattle.page.specs.Number.{number_in, render};
ghost use Rattle.page.specs.Tree.{boolean_in};
ghost use Rattle.printing.specs.Card.{pointed, template_name};

use crate::front::parts;
use decisions::expr::boolean_in;
use field::NUMBER_WIDTH;
use field::reader::Fields;
use field::writer::{put_byte, put_bytes};
use page::number::{number_in, put_number};
use text::decimal::put_decimal;

// Names with points between.
pub fn put_pointed(out: &mut [u8], at: usize, s: &[u8]) -> usize
    requires { at + length (pointed (read s.now)) < 2 ^ 63 }
    ensures { Wrote out.old at (pointed (read s.now)) out.new result }
{
    let mut names = Fields(s);
    let Some(first) = names.next() else {
        return at;
    };
    let mut a = put_bytes(out, at, parts(first).0);
    for name in names {
        let b = put_byte(out, a, b'.');
        a = put_bytes(out, b, parts(name).0);
    }
    a
}

// A template's name, by the number in front of a body.
pub fn put_template_name(out: &mut [u8], at: usize, f: &[u8]) -> usize
    requires { at + length (template_name f.now) < 2 ^ 63 }
    ensures { Wrote out.old at (template_name f.now) out.new result }
{
    let a = put_bytes(out, at, b"$$_tpl_");
    put_decimal(out, a, number_in(f.get(..NUMBER_WIDTH).unwrap_or(f)))
}

pub fn put_boolean(out: &mut [u8], at: usize, f: &[u8]) -> usize
    requires { at < 2 ^ 63 }
    ensures { Wrote out.old at (pick (boolean_in f.now) (ascii "true") (ascii "false")) out.new result }
{
    if boolean_in(f) {
        put_bytes(out, at, b"true")
    } else {
        put_bytes(out, at, b"false")
    }
}

// A minus before its number.
pub fn put_minus(out: &mut [u8], at: usize, tag: u8, f: &[u8]) -> usize
    requires { at + length (45 ∷ render (number_in tag f.now)) < 2 ^ 63 }
    ensures { Wrote out.old at (45 ∷ render (number_in tag f.now)) out.new result }
{
    let a = put_byte(out, at, b'-');
    put_number(out, a, tag, f)
}
