// Options: the names of 02 and 03, the import's source, whether sums are worked out.
ghost use Rattle.std.specs.Prelude.{◌≡◌, ℕ, ◌≤◌, length, get_or, MatchOption};
ghost use Rattle.field.specs.Row.{read, fields_after, inside};
ghost use Rattle.transform.specs.Options.{LacksTag, HasTag};
ghost use Rattle.page.specs.Tree.{texts_in, listed_in, source_in, works_sums};

use field::reader::Fields;
use field::tags::{IMPORT_SOURCE, SUMS};

// What the first field with that tag holds.
fn first_with(options: &[u8], tag: u8) -> Option<&[u8]>
    ensures { MatchOption result (LacksTag tag options.now) (λ b. HasTag tag options.now b.now) }
{
    Fields(options)
        .find(|field| field.tag == tag)
        .map(|field| field.body)
}

// The names in the first field with that tag, if it is a tag that holds fields.
pub fn names_in(options: &[u8], tag: u8) -> &[u8]
    ensures { (inside tag ≡ fields_after 0 → texts_in 0x20 (read result.now) ≡ listed_in tag (read options.now)) × (length result.now ≤ length options.now) }
{
    first_with(options, tag).unwrap_or(b"")
}

// The import's source.
pub fn source(options: &[u8]) -> &[u8]
    ensures { result.now ≡ source_in (read options.now) }
{
    first_with(options, IMPORT_SOURCE).unwrap_or(b"react")
}

// Whether a 05 stands.
pub fn works_sums(options: &[u8]) -> bool
    ensures { result ≡ works_sums (read options.now) }
{
    first_with(options, SUMS).is_some()
}

// Room for N bytes. What it holds is proved once, here: its callers need not go through it. Not that of `input`, a crate which reads standard
// input: the transform reads nothing but what it is given.
pub fn room<const N: usize>() -> [u8; N]
    ensures { (length result ≡ N) × ((i : ℕ) → get_or result i 0 ≡ 0) }
{
    [0; N]
}
