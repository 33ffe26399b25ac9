// The whole answer: what is refused before the text is read, the pass, and what is refused behind it (document 02, A3).
ghost use Rattle.std.specs.Prelude.{◌≡◌};
ghost use Rattle.tag_pass.specs.declared.answer.Unread.TheVariants as U;
ghost use Rattle.tag_pass.specs.Answers.{TagAnswers, unread_number, checked, FieldRead};

use crate::pass::read;
use crate::state::Reading;
use field::{HEAD, MAX_BODY};
use page::MAX_PAGE;
use refusal::{Refusal, refuse_unless};
use utf8::is_utf8;

// It goes to C by value: a number, 0 for none refused, and no Result.
#[repr(C)]
#[derive(Clone, Copy)]
pub struct TagAnswer {
    pub number: u32,
    pub tag_bytes: usize,
}

// Why a text is not taken: what is refused of a page too, where the tag's buffer is the page.
#[derive(Clone, Copy, PartialEq, Eq)]
pub enum Unread {
    Refused(Refusal),
    NoReading,
    // it would be read if closing names were not compared
    NamesDiffer,
}

impl From<Unread> for u32 {
    ghost from_gives = { λ e n. n ≡ unread_number e };

    #[tactic(auto, unfolding(crate::specs::Answers::unread_number))]
    fn from(e: Unread) -> u32 {
        match e {
            Unread::Refused(refusal) => u32::from(refusal),
            Unread::NoReading => 14,
            Unread::NamesDiffer => 15,
        }
    }
}

impl From<Refusal> for Unread {
    ghost from_gives = { λ r e. e ≡ U.Refused r };

    fn from(r: Refusal) -> Unread {
        Unread::Refused(r)
    }
}

// A head of three bytes and the longest body.
const MAX_FIELD: usize = HEAD + MAX_BODY;

// The bytes that were written. The fields of a tag are in its own field, so that a body is too long exactly where the tag's is.
#[tactic(auto, using(refusal::proofs::Verdicts::refused_by, refusal::proofs::Verdicts::fine_by, crate::proofs::AnswerLaws::handed), unfolding(crate::specs::Answers::checked, crate::specs::Answers::refused_if))]
fn check(st: Reading, room: usize) -> Result<usize, Unread>
    ensures { result ≡ checked st room }
{
    if !st.names {
        return Err(Unread::NamesDiffer);
    }
    refuse_unless(st.numbers, Refusal::NumberTooLarge)?;
    refuse_unless(st.shallow, Refusal::TooDeep)?;
    refuse_unless(st.at <= MAX_FIELD, Refusal::OutputTooLong)?;
    refuse_unless(st.at <= room, Refusal::PageTooSmall)?;
    Ok(st.at)
}

// The tag's field, in front of out; how long it is.
fn read_field(text: &[u8], out: &mut [u8]) -> Result<usize, Unread>
    ensures { FieldRead text.now out.old result out.new }
{
    refuse_unless(text.len() <= MAX_PAGE, Refusal::InputTooLong)?;
    refuse_unless(is_utf8(text), Refusal::NotUtf8)?;
    let st = read(text, out).ok_or(Unread::NoReading)?;
    check(st, out.len())
}

pub fn read_tag(text: &[u8], out: &mut [u8]) -> TagAnswer
    ensures { TagAnswers text.now out.old result out.new }
{
    match read_field(text, out) {
        Ok(tag_bytes) => TagAnswer {
            number: 0,
            tag_bytes,
        },
        Err(e) => {
            out.fill(0);
            TagAnswer {
                number: u32::from(e),
                tag_bytes: 0,
            }
        }
    }
}
