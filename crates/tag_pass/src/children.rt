// Children of a tag.
ghost use Rattle.std.specs.Prelude.{◌≡◌, true, ◌<◌, length, get_or};
ghost use Rattle.grammar.specs.Signs.{text_byte};
ghost use Rattle.tag_pass.specs.States.{Bounded};
ghost use Rattle.tag_pass.specs.Turns.{ChildrenTurn};

use crate::braces::child_braces;
use crate::state::{Holder, Mode, Reading};
use read_tag::texts::read_text;

fn text_child(text: &[u8], out: &mut [u8], st: Reading, i: usize) -> Option<Reading>
    requires { Bounded (length text.now) st i × (i < length text.now) × (text_byte (get_or text.now i 0) ≡ true) }
    ensures { ChildrenTurn text.now st i out.old result out.new }
{
    let run = read_text(text, i, out, st.at)?;
    let w = st.wrote(run.at, st.depth + 1);
    Some(w.in_mode(Mode::InChildren, run.end))
}

pub fn step_children(text: &[u8], out: &mut [u8], st: Reading) -> Option<Reading>
    requires { Bounded (length text.now) st st.place }
    ensures { ChildrenTurn text.now st st.place out.old result out.new }
{
    let i = st.place;
    match *text.get(i)? {
        b'<' => Some(st.in_mode(Mode::Inner(Holder::Children), i + 1)),
        b'{' => child_braces(text, out, st, i + 1),
        b'>' | b'}' => None,
        _ => text_child(text, out, st, i),
    }
}
