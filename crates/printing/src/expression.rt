// The text of expressions, as they stand in page out.
ghost use Rattle.std.specs.Prelude.{◌≡◌, ◌+◌, ◌<◌, ◌^◌, length, ◌∷◌, ◌++◌, []};
ghost use Rattle.field.specs.Put.{Wrote};
ghost use Rattle.field.specs.Bytes.{ascii};
ghost use Rattle.field.specs.Row.{read};
ghost use Rattle.printing.specs.Card.{quoted, prop_name, template_name, first_front, second_front, all_text, parted_text, behind_text, first_text, second_text, field_text};

use crate::front::{first_front, parts};
use crate::name::{put_boolean, put_minus, put_pointed, put_template_name};
use crate::quoted::{put_prop_name, put_quoted};
use field::reader::{Field, Fields, behind, field_at};
use field::tags::{
    ARRAY, ARRAY_SPREAD, BOOLEAN, CHOICE, DECIMAL, IDENT, JSX, JSX_ATTR, JSX_ESCAPE, JSX_TEMPLATE,
    MEMBER, MINUS, MINUS_DECIMAL, NULL, NUMBER, OTHER_EXPRESSION, OTHER_LITERAL, PROP, PROPS,
    SOURCE, SPREAD, STATIC_STRING, STRING,
};
use field::writer::{put_byte, put_bytes};
use page::number::put_number;

// The expression of a field.
#[cycle(print)]
fn print_field(out: &mut [u8], at: usize, field: Field<'_>) -> usize
    requires { at + length (field_text field.tag field.body.now) < 2 ^ 63 }
    ensures { Wrote out.old at (field_text field.entry.tag field.entry.body.now) out.new result }
{
    let (f, i) = parts(field);
    match field.tag {
        SOURCE | IDENT | OTHER_LITERAL => put_bytes(out, at, f),
        MEMBER => put_pointed(out, at, i),
        STRING | STATIC_STRING => put_quoted(out, at, f),
        NUMBER | DECIMAL => put_number(out, at, field.tag, f),
        BOOLEAN => put_boolean(out, at, f),
        NULL => put_bytes(out, at, b"null"),
        MINUS | MINUS_DECIMAL => put_minus(out, at, field.tag, f),
        ARRAY => print_between(out, at, b"[", i, b"]"),
        SPREAD | ARRAY_SPREAD => print_spread(out, at, i),
        OTHER_EXPRESSION => print_all(out, at, i),
        JSX_TEMPLATE => print_template(out, at, f, i),
        JSX_ATTR => print_between(out, at, b"_jsxAttr(", i, b")"),
        JSX_ESCAPE => print_between(out, at, b"_jsxEscape(", i, b")"),
        CHOICE => print_choice(out, at, i),
        JSX => print_between(out, at, b"_jsx(", i, b")"),
        PROPS => print_between(out, at, b"{ ", i, b" }"),
        PROP => print_prop(out, at, i),
        _ => at,
    }
}

// The expression in front, where there is one.
#[cycle(print)]
fn print_first(out: &mut [u8], at: usize, s: &[u8]) -> usize
    requires { at + length (first_text (read s.now)) < 2 ^ 63 }
    ensures { Wrote out.old at (first_text (read s.now)) out.new result }
{
    match field_at(s) {
        Some(field) => print_field(out, at, field),
        None => at,
    }
}

// Expressions with `, ` between them, behind `before` and before `after`.
#[cycle(print)]
fn print_between<'a>(
    out: &mut [u8],
    at: usize,
    before: &'a [u8],
    s: &'a [u8],
    after: &'a [u8],
) -> usize
    requires { at + length (before.now ++ (parted_text (read s.now) ++ after.now)) < 2 ^ 63 }
    ensures { Wrote out.old at (before.now ++ (parted_text (read s.now) ++ after.now)) out.new result }
{
    let a = put_bytes(out, at, before);
    let b = print_parted(out, a, s);
    put_bytes(out, b, after)
}

// A spread.
#[cycle(print)]
fn print_spread(out: &mut [u8], at: usize, s: &[u8]) -> usize
    requires { at + length (ascii "..." ++ first_text (read s.now)) < 2 ^ 63 }
    ensures { Wrote out.old at (ascii "..." ++ first_text (read s.now)) out.new result }
{
    let a = put_bytes(out, at, b"...");
    print_first(out, a, s)
}

// The call of a template, by the number in front and what it is called with.
#[cycle(print)]
fn print_template<'a>(out: &mut [u8], at: usize, f: &'a [u8], s: &'a [u8]) -> usize
    requires { at + length (ascii "_jsxTemplate(" ++ (template_name f.now ++ (behind_text (read s.now) ++ (41 ∷ [])))) < 2 ^ 63 }
    ensures { Wrote out.old at (ascii "_jsxTemplate(" ++ (template_name f.now ++ (behind_text (read s.now) ++ (41 ∷ [])))) out.new result }
{
    let a = put_bytes(out, at, b"_jsxTemplate(");
    let b = put_template_name(out, a, f);
    let c = print_behind(out, b, s);
    put_byte(out, c, b')')
}

// A choice.
#[cycle(print)]
fn print_choice(out: &mut [u8], at: usize, s: &[u8]) -> usize
    requires { at + length (first_text (read s.now) ++ (ascii " ? " ++ (quoted (second_front (read s.now)) ++ ascii " : \"\""))) < 2 ^ 63 }
    ensures { Wrote out.old at (first_text (read s.now) ++ (ascii " ? " ++ (quoted (second_front (read s.now)) ++ ascii " : \"\""))) out.new result }
{
    let a = print_first(out, at, s);
    let b = put_bytes(out, a, b" ? ");
    let c = put_quoted(out, b, first_front(behind(s)));
    put_bytes(out, c, b" : \"\"")
}

// A property.
#[cycle(print)]
fn print_prop(out: &mut [u8], at: usize, s: &[u8]) -> usize
    requires { at + length (prop_name (first_front (read s.now)) ++ (ascii ": " ++ second_text (read s.now))) < 2 ^ 63 }
    ensures { Wrote out.old at (prop_name (first_front (read s.now)) ++ (ascii ": " ++ second_text (read s.now))) out.new result }
{
    let a = put_prop_name(out, at, first_front(s));
    let b = put_bytes(out, a, b": ");
    print_first(out, b, behind(s))
}

// One after the other.
#[cycle(print)]
pub fn print_all(out: &mut [u8], at: usize, s: &[u8]) -> usize
    requires { at + length (all_text (read s.now)) < 2 ^ 63 }
    ensures { Wrote out.old at (all_text (read s.now)) out.new result }
{
    let mut a = at;
    for field in Fields(s) {
        a = print_field(out, a, field);
    }
    a
}

// With `, ` between.
#[cycle(print)]
pub fn print_parted(out: &mut [u8], at: usize, s: &[u8]) -> usize
    requires { at + length (parted_text (read s.now)) < 2 ^ 63 }
    ensures { Wrote out.old at (parted_text (read s.now)) out.new result }
{
    let mut fields = Fields(s);
    let Some(first) = fields.next() else {
        return at;
    };
    let a = print_field(out, at, first);
    print_behind(out, a, fields.0)
}

// With `, ` before each. A loop of its own beside `print_all`: one loop for both, with what it puts before each as a parameter, would promise
// a third text, which each caller would turn into its own.
#[cycle(print)]
fn print_behind(out: &mut [u8], at: usize, s: &[u8]) -> usize
    requires { at + length (behind_text (read s.now)) < 2 ^ 63 }
    ensures { Wrote out.old at (behind_text (read s.now)) out.new result }
{
    let mut a = at;
    for field in Fields(s) {
        let b = put_bytes(out, a, b", ");
        a = print_field(out, b, field);
    }
    a
}
