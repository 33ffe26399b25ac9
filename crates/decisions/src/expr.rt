// The expression at the front of a series, by the shapes that 000 tells apart.
ghost use Rattle.std.specs.Prelude.{◌≡◌, ◌+◌, ◌<◌, ◌^◌, length};
ghost use Rattle.field.specs.Put.{Wrote};
ghost use Rattle.field.specs.Row.{read};
ghost use Rattle.page.specs.Number.{number_in, number_bytes};
ghost use Rattle.page.specs.Tree.{boolean_in, contained_in};
ghost use Rattle.decisions.specs.At.{shape_of_contained, number_at, number_text};

use field::reader::{Field, field_at};
use field::tags::{
    ARRAY, BOOLEAN, DECIMAL, ELEMENT, FRAGMENT, MINUS, MINUS_DECIMAL, NUMBER, OTHER_EXPRESSION,
    OTHER_LITERAL, STRING,
};
use page::number::{put_number, put_number_bytes};

#[derive(Clone, Copy)]
pub enum Shape {
    // no expression: an empty container
    Empty,
    String,
    Number,
    Boolean(bool),
    Null,
    Literal,
    Minus,
    Other,
}

pub fn boolean_in(s: &[u8]) -> bool
    ensures { result ≡ boolean_in s.now }
{
    matches!(s, [1, ..])
}

pub fn shape_at(c: &[u8]) -> Shape
    ensures { result ≡ shape_of_contained (contained_in (read c.now)) }
{
    let Some(field) = field_at(c) else {
        return Shape::Empty;
    };
    match field.tag {
        STRING => Shape::String,
        NUMBER | DECIMAL => Shape::Number,
        BOOLEAN => Shape::Boolean(boolean_in(field.body)),
        OTHER_LITERAL => Shape::Literal,
        MINUS | MINUS_DECIMAL => Shape::Minus,
        ARRAY | OTHER_EXPRESSION | ELEMENT | FRAGMENT => Shape::Other,
        _ => Shape::Null,
    }
}

// The number in front, by its field. That of none is read as one of no bytes, as in the tree.
fn number_field(c: &[u8]) -> Field<'_>
    ensures { number_in result.tag result.body.now ≡ number_at c.now }
{
    field_at(c).unwrap_or(Field {
        tag: NUMBER,
        body: &[],
    })
}

// The text of the number in front. This and the next share `number_field`, and else each calls the writer that its clause names.
pub fn put_number_at(out: &mut [u8], at: usize, c: &[u8]) -> usize
    requires { at + length (number_text c.now) < 2 ^ 63 }
    ensures { Wrote out.old at (number_text c.now) out.new result }
{
    let number = number_field(c);
    put_number(out, at, number.tag, number.body)
}

// Its body, as it came.
pub fn put_number_bytes_at(out: &mut [u8], at: usize, c: &[u8]) -> usize
    requires { at + 9 < 2 ^ 64 }
    ensures { Wrote out.old at (number_bytes (number_at c.now)) out.new result }
{
    let number = number_field(c);
    put_number_bytes(out, at, number.tag, number.body)
}
