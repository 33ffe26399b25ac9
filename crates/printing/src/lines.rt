// The lines: import, templates, items.
ghost use Rattle.std.specs.Prelude.{◌≡◌, ◌+◌, ◌<◌, ◌^◌, length, ◌++◌, ◌∷◌, []};
ghost use Rattle.field.specs.Put.{Wrote};
ghost use Rattle.field.specs.Bytes.{ascii};
ghost use Rattle.field.specs.Row.{read};
ghost use Rattle.printing.specs.Card.{helper_text, helpers_text, sum_in, import_text, templates_text, page_text, all_text};

use crate::expression::{print_all, print_parted};
use crate::front::{first_front, parts};
use crate::name::put_template_name;
use crate::quoted::put_quoted;
use field::reader::{Fields, behind, field_at};
use field::tags::{EMPTY_STATEMENT, IMPORT, TEMPLATES_HERE};
use field::writer::{put_byte, put_bytes};

// A helper by its own name and the name that the page calls it by.
fn put_renamed(out: &mut [u8], at: usize, name: &[u8]) -> usize
    requires { at + length (name.now ++ (ascii " as _" ++ name.now)) < 2 ^ 63 }
    ensures { Wrote out.old at (name.now ++ (ascii " as _" ++ name.now)) out.new result }
{
    let a = put_bytes(out, at, name);
    let b = put_bytes(out, a, b" as _");
    put_bytes(out, b, name)
}

// A helper of the import, where it stands; `, ` before it where it is not the first.
fn put_helper(out: &mut [u8], at: usize, stands: bool, later: bool, name: &[u8]) -> usize
    requires { at + length (helper_text stands later name.now) < 2 ^ 63 }
    ensures { Wrote out.old at (helper_text stands later name.now) out.new result }
{
    if stands {
        let a = if later { put_bytes(out, at, b", ") } else { at };
        put_renamed(out, a, name)
    } else {
        at
    }
}

// The helpers of a sum.
fn put_helpers(out: &mut [u8], at: usize, n: u8) -> usize
    requires { at + length (helpers_text n) < 2 ^ 63 }
    ensures { Wrote out.old at (helpers_text n) out.new result }
{
    let jsx = n & 1 != 0;
    let template = n & 2 != 0;
    let attr = n & 4 != 0;
    let escape = n & 8 != 0;
    let earlier = jsx || template;
    let a = put_helper(out, at, jsx, false, b"jsx");
    let b = put_helper(out, a, template, jsx, b"jsxTemplate");
    let c = put_helper(out, b, attr, earlier, b"jsxAttr");
    put_helper(out, c, escape, earlier || attr, b"jsxEscape")
}

// The sum in an import's body: one byte, as 01 has it, and 0 where it does not stand.
fn sum_in(s: &[u8]) -> u8
    ensures { result ≡ sum_in (read s.now) }
{
    let t = behind(s);
    match field_at(t) {
        Some(_) => 0,
        None => t.first().copied().unwrap_or(0),
    }
}

// The import, by its body.
fn print_import(out: &mut [u8], at: usize, s: &[u8]) -> usize
    requires { at + length (import_text (read s.now)) < 2 ^ 63 }
    ensures { Wrote out.old at (import_text (read s.now)) out.new result }
{
    let a = put_bytes(out, at, b"import { ");
    let b = put_helpers(out, a, sum_in(s));
    let c = put_bytes(out, b, b" } from ");
    let d = put_quoted(out, c, first_front(s));
    put_bytes(out, d, b";\n")
}

// The templates, each on a line.
fn print_templates(out: &mut [u8], at: usize, s: &[u8]) -> usize
    requires { at + length (templates_text (read s.now)) < 2 ^ 63 }
    ensures { Wrote out.old at (templates_text (read s.now)) out.new result }
{
    let mut a = at;
    for template in Fields(s) {
        let (number, strings) = parts(template);
        let b = put_bytes(out, a, b"const ");
        let c = put_template_name(out, b, number);
        let d = put_bytes(out, c, b" = [");
        let e = print_parted(out, d, strings);
        a = put_bytes(out, e, b"];\n");
    }
    a
}

// An item, by its body.
fn print_item(out: &mut [u8], at: usize, s: &[u8]) -> usize
    requires { at + length (all_text (read s.now) ++ (10 ∷ [])) < 2 ^ 63 }
    ensures { Wrote out.old at (all_text (read s.now) ++ (10 ∷ [])) out.new result }
{
    let a = print_all(out, at, s);
    put_byte(out, a, b'\n')
}

// Both outputs of a page.
pub fn print_page<'a>(out: &mut [u8], at: usize, templates: &'a [u8], page: &'a [u8]) -> usize
    requires { at + length (page_text (read templates.now) (read page.now)) < 2 ^ 63 }
    ensures { Wrote out.old at (page_text (read templates.now) (read page.now)) out.new result }
{
    let mut a = at;
    for item in Fields(page) {
        let (_, fields) = parts(item);
        a = match item.tag {
            IMPORT => print_import(out, a, fields),
            TEMPLATES_HERE => print_templates(out, a, templates),
            EMPTY_STATEMENT => put_bytes(out, a, b";\n"),
            _ => print_item(out, a, fields),
        };
    }
    a
}
