// The sign that decides what a turn does.
ghost use Rattle.std.specs.Prelude.{◌≤◌, length};
ghost use Rattle.tag_pass.specs.Signs.{SignBehind};

use read_tag::signs::skip_spaces;

#[derive(Clone, Copy)]
pub struct Sign {
    pub byte: u8,
    pub place: usize,
}

// Behind the white space at i, if anything stands there.
#[inline(always)]
pub fn sign_behind(text: &[u8], i: usize) -> Option<Sign>
    requires { i ≤ length text.now }
    ensures { SignBehind text.now i result }
{
    let place = skip_spaces(text, i);
    let byte = *text.get(place)?;
    Some(Sign { byte, place })
}
