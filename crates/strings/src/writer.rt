// The open string, and what is put at its end. Its head is written when it is closed, since its length is known only then.
ghost use Rattle.std.specs.Prelude.{◌≡◌, ◌+◌, ◌≤◌, ◌<◌, ◌^◌, true, ◌∷◌, []};
ghost use Rattle.spec.specs.Pass.{chars};
ghost use Rattle.text.specs.Text.{jsx_text_to_str};
ghost use Rattle.strings.specs.Carve.{at, end, carve, close, put_on, ended_at, Low};

use crate::due::{Due, with_body};
use field::HEAD;
use field::tags::STATIC_STRING;
use field::writer::{put_bytes, put_head};
use text::jsx_text::jsx_text_to_str;

// Where its head stands, how long it is, how many gaps stand before it, and what is due. It is a state by value with the buffer beside it: in a
// probe that puts bytes one by one, a struct of both that is lent as &mut took 20 % more (8,743 instructions for 7,256).
// `element_strings`, `tag_strings` and `put_run` return it early, and not as the value of an `if` or a `match`: such a value is copied whole, and
// the seven bytes behind `due` that no one reads go along as two words that overlap, each of which waits for the one before. Pages of thousands
// of small elements took 1.2 to 1.4 times the time by it, at equal instructions.
#[derive(Clone, Copy)]
pub struct Open {
    pub head: usize,
    pub len: usize,
    pub gaps: usize,
    pub due: Due,
}

impl Open {
    // The place behind it.
    pub(crate) fn end(self) -> usize
        requires { end self < 2 ^ 64 }
        ensures { result ≡ end self }
    {
        self.head + HEAD + self.len
    }

    // When its last byte stands before that place.
    pub(crate) fn ended(self, end: usize) -> Open
        requires { self.head + 3 ≤ end }
        ensures { result ≡ ended_at self end }
    {
        Open {
            len: end - (self.head + HEAD),
            ..self
        }
    }
}

#[tactic(auto, using(crate::proofs::CarveLaws::put_is), unfolding(crate::specs::Carve::carve))]
pub fn put_chars(out: &mut [u8], st: Open, b: &[u8]) -> Open
    requires { Low (carve (chars b.now ∷ []) (at out.old st)) }
    ensures { at out.new result ≡ carve (chars b.now ∷ []) (at out.old st) }
{
    let end = put_bytes(out, st.end(), b);
    st.ended(end)
}

// The open string is closed, and another opened behind it, with a gap between.
#[tactic(auto, using(crate::proofs::CarveLaws::cut_is))]
pub fn cut(out: &mut [u8], st: Open) -> Open
    requires { Low (close (at out.old st)) }
    ensures { at out.new result ≡ close (at out.old st) }
{
    put_head(out, st.head, STATIC_STRING, st.len);
    Open {
        head: st.end(),
        len: 0,
        gaps: st.gaps + 1,
        due: with_body(st.due, st.len),
    }
}

// A space, and a dynamic expression behind it.
#[tactic(auto, unfolding(crate::specs::Carve::carve))]
pub fn space_and_cut(out: &mut [u8], st: Open) -> Open
    requires { Low (close (put_on (32 ∷ []) (at out.old st))) }
    ensures { at out.new result ≡ close (put_on (32 ∷ []) (at out.old st)) }
{
    let a = put_chars(out, st, b" ");
    cut(out, a)
}

// A text child by the line rule, escaped.
#[tactic(auto, using(crate::proofs::CarveLaws::put_is), unfolding(crate::specs::Carve::carve))]
pub fn put_text(out: &mut [u8], st: Open, s: &[u8], last: bool) -> Open
    requires { Low (carve (chars (jsx_text_to_str s.now true last) ∷ []) (at out.old st)) }
    ensures { at out.new result ≡ carve (chars (jsx_text_to_str s.now true last) ∷ []) (at out.old st) }
{
    let end = jsx_text_to_str(out, st.end(), s, true, last);
    st.ended(end)
}
