// What is due behind the walk: the gravest reason so far to refuse the page, which every state carries.
ghost use Rattle.std.specs.Prelude.{◌≡◌, ltb};
ghost use Rattle.strings.specs.Due.{graver, long_due};

use field::MAX_BODY;

// Of two reasons the later one here is answered. Nothing is the least of them: as an Option each reason that is given would stand in a Some, and
// the order would be the same.
#[derive(Clone, Copy, PartialEq, Eq, PartialOrd, Ord)]
pub enum Due {
    Nothing,
    // 11: a body, or a run that is merged a second time, is over 65,535 bytes
    Long,
    // 19: an element that is serialized is void only in small letters (document 02, A10)
    Mixed,
    // 16: it has two attributes of one name (A4)
    Repeated,
    // 10: a tag is left
    Left,
}

#[tactic(auto, unfolding(crate::specs::Due::graver))]
pub fn graver(a: Due, b: Due) -> Due
    ensures { result ≡ graver a b }
{
    a.max(b)
}

// Behind a body of so many bytes.
#[tactic(auto, using(crate::proofs::DueLaws::body_long, crate::proofs::DueLaws::body_short))]
pub fn with_body(due: Due, len: usize) -> Due
    ensures { result ≡ graver due (long_due (ltb 65535 len)) }
{
    if MAX_BODY < len {
        graver(due, Due::Long)
    } else {
        due
    }
}
