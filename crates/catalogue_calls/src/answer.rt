// The answer of an arrival and of a leaving.
ghost use Rattle.std.specs.Prelude.{◌≡◌};
ghost use Rattle.catalogue_calls.specs.Judges.{unkept_number};
ghost use Rattle.catalogue_calls.specs.declared.answer.Unkept.TheVariants as U;

use refusal::Refusal;

// Why nothing is kept: what is refused of the page or of the catalogue; kinds or numbers that are not as they must be; then the other refusals of
// document 02, A13 and A14.
#[derive(Clone, Copy)]
pub enum Unkept {
    Refused(Refusal),
    Disagreeing,
    Unshared,
    NamePresent,
    NameAbsent,
    OverMost,
    Uncovered,
}

impl From<Refusal> for Unkept {
    ghost from_gives = { λ r e. e ≡ U.Refused r };

    fn from(r: Refusal) -> Unkept {
        Unkept::Refused(r)
    }
}

impl From<Unkept> for u32 {
    ghost from_gives = { λ e n. n ≡ unkept_number e };

    fn from(e: Unkept) -> u32 {
        match e {
            Unkept::Refused(r) => u32::from(r),
            Unkept::Disagreeing => 17,
            Unkept::NamePresent => 21,
            Unkept::NameAbsent => 22,
            Unkept::OverMost => 24,
            Unkept::Uncovered => 25,
            Unkept::Unshared => 26,
        }
    }
}
