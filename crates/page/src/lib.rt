// The page and its options: the typed tree that fields read as, and the refusals 3 to 8 of document 01, front to back. The tree is
// read leniently from any bytes; whether the bytes are the page's own is what the checks say. What becomes of a page is left to `spec`.
#![tactic(auto)]

ghost use Rattle.std.specs.Prelude.{◌≡◌, ◌≤◌, true, OnOk};
ghost use Rattle.page.specs.Check.{check_header};

pub mod element;
pub mod leaf;
pub mod name;
pub mod number;
pub mod whole;

use refusal::{Refusal, refuse_unless};

// 01, Limits and the answer: the longest page and the longest options, the shortest scratch, the depth of the deepest field.
pub const MAX_PAGE: usize = 32768;

pub const MAX_OPTIONS: usize = 4096;

pub const MIN_SCRATCH: usize = 65536;

pub const MAX_DEPTH: usize = 48;

// The depth of a field whose tag may stand there.
#[tactic(auto, unfolding(crate::specs::Check::check_header, refusal::specs::Refusal::after))]
fn check_depth(depth: usize) -> Result<(), Refusal>
    ensures gives { result ≡ check_header true depth }
    ensures fits { OnOk result (depth ≤ 48) }
{
    refuse_unless(depth <= MAX_DEPTH, Refusal::TooDeep)
}
