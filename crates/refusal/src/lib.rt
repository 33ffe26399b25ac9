// What is refused, by number, and what one check says of it. Below the page: what reads other inputs (tag text, an order, a catalogue) refuses in the
// same way, and a check of its own proves nothing of the page's anew.
#![tactic(auto)]

ghost use Rattle.std.specs.Prelude.{◌≡◌};
ghost use Rattle.refusal.specs.Refusal.{refusal_number, unless};

// The refusals of document 01, each under its number; the comments have its trade's word.
#[derive(Clone, Copy, PartialEq, Eq)]
pub enum Refusal {
    // short desk
    ScratchTooSmall = 1,
    // thick
    InputTooLong = 2,
    // torn
    Truncated = 3,
    // misplaced
    Misplaced = 4,
    // bad name
    BadName = 5,
    // bad letters
    NotUtf8 = 6,
    // big number
    NumberTooLarge = 7,
    // too deep
    TooDeep = 8,
    // bare tag; 9, unfinished, is never given again
    TagLeft = 10,
    // document 02, A4
    RepeatedAttribute = 16,
    // document 02, A10
    MixedCaseVoid = 19,
    // long
    OutputTooLong = 11,
    // small shelf
    TemplatesTooSmall = 12,
    // small page
    PageTooSmall = 13,
}

// What one test says.
pub fn refuse_unless(fits: bool, refusal: Refusal) -> Result<(), Refusal>
    ensures { result ≡ unless fits refusal }
{
    if fits { Ok(()) } else { Err(refusal) }
}

impl From<Refusal> for u32 {
    ghost from_gives = { λ e n. n ≡ refusal_number e };

    #[tactic(auto, unfolding(crate::specs::Refusal::refusal_number))]
    fn from(e: Refusal) -> u32 {
        e as u32
    }
}
