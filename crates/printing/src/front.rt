// The body of a field in its two parts: bytes, and the fields behind them.
ghost use Rattle.std.specs.Prelude.{◌≡◌};
ghost use Rattle.field.specs.Row.{inside, counted};
ghost use Rattle.printing.specs.Front.{front_in, inner_in, front_of, fields_alone, front_length};

use field::reader::{Field, field_at};
use field::tags::{
    ARRAY, ARRAY_SPREAD, ATTRIBUTE, ATTRIBUTES_NOT_SERIALIZED, CONTAINER, ELEMENT, EXPORT,
    FRAGMENT, IMPORT, JSX_ATTR, JSX_TEMPLATE, MEMBER, NAMESPACED_NAME, OLD_TEMPLATE,
    OTHER_EXPRESSION, PAGE, PROP, SPREAD, SPREAD_CHILD, STATEMENT, TEMPLATE,
};
use field::{KINDS_AT, NUMBER_WIDTH, OLD_NUMBER_WIDTH};

// Whether a body is fields alone.
fn holds_fields(tag: u8) -> bool
    ensures { result ≡ fields_alone tag }
{
    matches!(
        tag,
        PAGE..=ATTRIBUTES_NOT_SERIALIZED
            | EXPORT..=STATEMENT
            | ELEMENT
            | FRAGMENT
            | MEMBER
            | NAMESPACED_NAME
            | ATTRIBUTE
            | CONTAINER
            | SPREAD
            | SPREAD_CHILD
            | ARRAY
            | ARRAY_SPREAD
            | OTHER_EXPRESSION
            | IMPORT
            | JSX_ATTR..=PROP
    )
}

// How many bytes of a body stand before its fields: by the tag, as `inside` says. A length, 0 where fields alone stand there.
fn front_len(tag: u8, b: &[u8]) -> usize
    ensures { result ≡ front_length (inside tag) b.now }
{
    let n = b.len();
    match tag {
        JSX_TEMPLATE => n.min(NUMBER_WIDTH),
        TEMPLATE => counted_len(b),
        OLD_TEMPLATE => n.min(OLD_NUMBER_WIDTH),
        _ if holds_fields(tag) => 0,
        _ => n,
    }
}

// A number of four bytes, a count of two, and as many bytes more.
fn counted_len(b: &[u8]) -> usize
    ensures { result ≡ front_length (counted 4) b.now }
{
    match b {
        [_, _, _, _, high, low, rest @ ..] => {
            KINDS_AT + usize::from(u16::from_be_bytes([*high, *low])).min(rest.len())
        }
        _ => b.len(),
    }
}

// The bytes in front, and the fields behind them.
pub fn parts(field: Field<'_>) -> (&[u8], &[u8])
    ensures front { result.0.now ≡ front_in field.entry.tag field.entry.body.now }
    ensures inner { result.1.now ≡ inner_in field.entry.tag field.entry.body.now }
{
    field.body.split_at(front_len(field.tag, field.body))
}

// The front of the first field. Where there is none it is no bytes, as in the definition: of an Option each of the three that print it would
// make them again.
pub fn first_front(s: &[u8]) -> &[u8]
    ensures { result.now ≡ front_of s.now }
{
    match field_at(s) {
        Some(field) => parts(field).0,
        None => &[],
    }
}
