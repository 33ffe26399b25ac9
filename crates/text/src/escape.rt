// escape_html. A run of bytes without an escape is copied at once.
ghost use Rattle.std.specs.Prelude.{◌≡◌, ◌+◌, ◌<◌, ◌≤◌, ◌^◌, ◌∷◌, [], length};
ghost use Rattle.field.specs.Bytes.{same};
ghost use Rattle.field.specs.Put.{Wrote};
ghost use Rattle.text.specs.Escape.{escape_byte, escape_html};
ghost use Rattle.text.specs.Runs.{plain};

use crate::runs::{Class, is_run, long_run_end};
use field::writer::{put_byte, put_bytes};

// The bytes that escaping leaves alone.
struct Plain;

impl Class for Plain {
    ghost holds = { λ x b. plain b };

    fn has(&self, b: u8) -> bool {
        // by &, as Class asks: by matches! a run of 100 bytes takes 953 instructions for 253 (a probe by rustc)
        (b != b'"') & (b != b'&') & (b != b'\'') & (b != b'<') & (b != b'>')
    }
}

// The bytes of an escape, stored where they fit; put_bytes clips them. Inlined, so that LLVM knows them. By copy_from_slice in place of the
// loop put_escaped took 12 % more instructions, and jsx_text_to_str 8 %.
#[inline(always)]
fn put_array<const N: usize>(out: &mut [u8], at: usize, bytes: &[u8; N]) -> usize
    requires { at + N < 2 ^ 64 }
    ensures { Wrote out.old at bytes.now out.new result }
{
    if out.len() < at + N {
        return put_bytes(out, at, bytes);
    }
    for (i, b) in bytes.iter().enumerate() {
        out[at + i] = *b;
    }
    at + N
}

fn put_escape(out: &mut [u8], at: usize, b: u8) -> usize
    requires { at + length (escape_byte b) < 2 ^ 64 }
    ensures { Wrote out.old at (escape_byte b) out.new result }
{
    match b {
        b'&' => put_array(out, at, b"&amp;"),
        b'<' => put_array(out, at, b"&lt;"),
        b'>' => put_array(out, at, b"&gt;"),
        b'\'' => put_array(out, at, b"&#39;"),
        b'"' => put_array(out, at, b"&quot;"),
        _ => put_byte(out, at, b),
    }
}

// Byte by byte, but for runs of plain bytes, which are copied whole: a turn passes a run, and where it ends only long_run_end says.
pub fn put_escaped(out: &mut [u8], at: usize, s: &[u8]) -> usize
    requires { at + length (escape_html s.now) < 2 ^ 63 }
    ensures { Wrote out.old at (escape_html s.now) out.new result }
{
    let mut a = at;
    let mut i: usize = 0;
    while i < s.len() {
        let b = s[i];
        if Plain.has(b) {
            // the byte itself is known to be plain
            let e = long_run_end::<_, 16>(&Plain, s, i + 1);
            a = put_bytes(out, a, &s[i..e]);
            i = e;
        } else {
            a = put_escape(out, a, b);
            i += 1;
        }
    }
    a
}

// The same of a name, which mostly has a few bytes, each tested by itself: by put_escaped, which looks for a run, trees of elements take 8.8 %
// more instructions (3,967,275 for 3,647,228).
pub fn put_short_escaped(out: &mut [u8], at: usize, s: &[u8]) -> usize
    requires { at + length (escape_html s.now) < 2 ^ 63 }
    ensures { Wrote out.old at (escape_html s.now) out.new result }
{
    if 8 <= s.len() {
        return put_escaped(out, at, s);
    }
    let mut a = at;
    for (i, b) in s.iter().enumerate() {
        if !Plain.has(*b) {
            return put_escaped(out, a, &s[i..]);
        }
        a = put_byte(out, a, *b);
    }
    a
}

// Whether escaping changes nothing.
pub fn is_escaped(s: &[u8]) -> bool
    ensures { result ≡ same s.now (escape_html s.now) }
{
    is_run::<_, 16>(&Plain, s)
}
