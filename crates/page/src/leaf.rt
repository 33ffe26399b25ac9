// The bodies that hold no field: texts, booleans, and those that must be empty. (Numbers: `number`.) Checks that are alike, here and in `name`, are one
// call of refuse_unless each: what they have in common is that call, and each states the definition of its name.
ghost use Rattle.std.specs.Prelude.{◌≡◌};
ghost use Rattle.page.specs.Check.{check_text, check_empty, check_boolean, check_source};

use refusal::{Refusal, refuse_unless};
use utf8::is_utf8;

#[tactic(auto, unfolding(crate::specs::Check::check_text))]
pub fn check_text(s: &[u8]) -> Result<(), Refusal>
    ensures { result ≡ check_text s.now }
{
    refuse_unless(is_utf8(s), Refusal::NotUtf8)
}

#[tactic(auto, unfolding(crate::specs::Check::check_empty))]
pub fn check_empty(s: &[u8]) -> Result<(), Refusal>
    ensures { result ≡ check_empty s.now }
{
    refuse_unless(s.is_empty(), Refusal::Misplaced)
}

// The import source.
#[tactic(auto, unfolding(crate::specs::Check::check_source, refusal::specs::Refusal::after))]
pub fn check_source(s: &[u8]) -> Result<(), Refusal>
    ensures { result ≡ check_source s.now }
{
    refuse_unless(!s.is_empty(), Refusal::Misplaced)?;
    check_text(s)
}

#[tactic(auto, unfolding(crate::specs::Check::check_boolean))]
pub fn check_boolean(s: &[u8]) -> Result<(), Refusal>
    ensures { result ≡ check_boolean s.now }
{
    refuse_unless(matches!(s, [0 | 1]), Refusal::Misplaced)
}
