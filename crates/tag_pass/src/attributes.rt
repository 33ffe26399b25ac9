// Attributes of a tag.
ghost use Rattle.std.specs.Prelude.{◌≡◌, true, ◌<◌, length};
ghost use Rattle.grammar.specs.Signs.{quote};
ghost use Rattle.tag_pass.specs.States.{Bounded};
ghost use Rattle.read_tag.specs.Names.{LetterAt, name_depth};
ghost use Rattle.tag_pass.specs.Turns.{AttributeTurn, NoValueTurn, ValueTurn, StringTurn, SpreadTurn};

use crate::braces::{braces, end_attribute, points};
use crate::sign::sign_behind;
use crate::state::{Braced, Holder, Mode, Reading};
use field::tags::{ATTRIBUTE, IDENT, MEMBER};
use field::writer::put_head;
use read_tag::name::{put_name, scan_name};
use read_tag::signs::is_quote;
use read_tag::texts::read_string;

// How deep a name goes whose field has that tag and stands at d.
pub fn name_depth(tag: u8, d: usize) -> usize
    requires { d < 65600 }
    ensures { result ≡ name_depth tag d }
{
    if tag == IDENT { d } else { d + 1 }
}

// A string from i on, behind its quote q.
fn string_value(text: &[u8], out: &mut [u8], st: Reading, i: usize, q: u8) -> Option<Reading>
    requires { Bounded (length text.now) st i × (quote q ≡ true) }
    ensures { StringTurn text.now st i q out.old result out.new }
{
    let run = read_string(text, i, q, out, st.at)?;
    let w = st.wrote(run.at, st.depth + 2);
    Some(end_attribute(out, w, run.end))
}

// Behind `=`.
fn value(text: &[u8], out: &mut [u8], st: Reading, i: usize) -> Option<Reading>
    requires { Bounded (length text.now) st i }
    ensures { ValueTurn text.now st i out.old result out.new }
{
    let sign = sign_behind(text, i)?;
    match sign.byte {
        q if is_quote(q) => string_value(text, out, st, sign.place + 1, q),
        b'{' => braces(text, out, st, Braced::Value, sign.place + 1),
        b'<' => Some(st.in_mode(Mode::Inner(Holder::Value), sign.place + 1)),
        _ => None,
    }
}

// Behind a name that ends at e.
fn behind_name(text: &[u8], out: &mut [u8], st: Reading, e: usize) -> Option<Reading>
    requires { Bounded (length text.now) st e }
    ensures { NoValueTurn text.now st e out.old result out.new }
{
    match *text.get(e)? {
        b'=' => value(text, out, st, e + 1),
        _ => Some(end_attribute(out, st, e)),
    }
}

// The attribute whose name begins at i. Its three calls are open_named's too, with other numbers: one function for both would promise again, word for
// word, what the three promise.
pub fn attribute(text: &[u8], out: &mut [u8], st: Reading, i: usize) -> Option<Reading>
    requires { Bounded (length text.now) st i × LetterAt text.now i }
    ensures { AttributeTurn text.now st i out.old result out.new }
{
    let name = scan_name(text, i)?;
    if name.tag == MEMBER {
        return None;
    }
    let a = put_head(out, st.at, ATTRIBUTE, 0);
    let b = put_name(text, i, name.tag, name.end, out, a);
    let d = name_depth(name.tag, st.depth + 2);
    let w = st.wrote(b, d);
    behind_name(text, out, Reading { fifty: st.at, ..w }, name.end)
}

// Behind the `{` of a spread.
pub fn spread(text: &[u8], out: &mut [u8], st: Reading, i: usize) -> Option<Reading>
    requires { Bounded (length text.now) st i }
    ensures { SpreadTurn text.now st i out.old result out.new }
{
    let sign = sign_behind(text, i)?;
    match sign.byte {
        b'.' => points(text, out, st, Braced::Spread, sign.place + 1),
        _ => None,
    }
}
