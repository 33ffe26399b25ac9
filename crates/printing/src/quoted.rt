// Strings and names in quotes.
ghost use Rattle.std.specs.Prelude.{◌≡◌, ◌+◌, ◌<◌, ◌^◌, ◌||◌, length};
ghost use Rattle.std.specs.List.{list_all};
ghost use Rattle.std.specs.Char.{is_ascii_digit};
ghost use Rattle.field.specs.Put.{Wrote};
ghost use Rattle.page.specs.Check.{name_start};
ghost use Rattle.printing.specs.Card.{hex_digit, quoted_byte, quoted_bytes, quoted, is_identifier, prop_name};

use field::writer::{put_byte, put_bytes};
use page::name::is_start;

fn hex_digit(n: u8) -> u8
    requires { n < 16 }
    ensures { result ≡ hex_digit n }
{
    b"0123456789abcdef"[usize::from(n)]
}

// A byte in a string.
fn put_quoted_byte(out: &mut [u8], at: usize, c: u8) -> usize
    requires { at + length (quoted_byte c) < 2 ^ 63 }
    ensures { Wrote out.old at (quoted_byte c) out.new result }
{
    match c {
        b'"' | b'\\' => put_bytes(out, at, &[b'\\', c]),
        b'\n' => put_bytes(out, at, b"\\n"),
        b'\r' => put_bytes(out, at, b"\\r"),
        _ if c.is_ascii_control() => put_bytes(
            out,
            at,
            &[b'\\', b'x', hex_digit(c / 16), hex_digit(c % 16)],
        ),
        _ => put_byte(out, at, c),
    }
}

fn put_quoted_bytes(out: &mut [u8], at: usize, s: &[u8]) -> usize
    requires { at + length (quoted_bytes s.now) < 2 ^ 63 }
    ensures { Wrote out.old at (quoted_bytes s.now) out.new result }
{
    let mut a = at;
    for c in s {
        a = put_quoted_byte(out, a, *c);
    }
    a
}

pub fn put_quoted(out: &mut [u8], at: usize, s: &[u8]) -> usize
    requires { at + length (quoted s.now) < 2 ^ 63 }
    ensures { Wrote out.old at (quoted s.now) out.new result }
{
    let a = put_byte(out, at, b'"');
    let b = put_quoted_bytes(out, a, s);
    put_byte(out, b, b'"')
}

fn goes_on(s: &[u8]) -> bool
    ensures { result ≡ list_all (λ c. name_start c || is_ascii_digit c) s.now }
{
    s.iter().all(|c| is_start(*c) || c.is_ascii_digit())
}

// is_text_valid_identifier
fn is_identifier(s: &[u8]) -> bool
    ensures { result ≡ is_identifier s.now }
{
    s.split_first()
        .is_some_and(|(first, rest)| is_start(*first) && goes_on(rest))
}

// A property's name: bare, or in quotes.
pub fn put_prop_name(out: &mut [u8], at: usize, s: &[u8]) -> usize
    requires { at + length (prop_name s.now) < 2 ^ 63 }
    ensures { Wrote out.old at (prop_name s.now) out.new result }
{
    if is_identifier(s) {
        put_bytes(out, at, s)
    } else {
        put_quoted(out, at, s)
    }
}
