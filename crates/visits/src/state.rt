// How a visit begins and ends, and what is told apart before it.
ghost use Rattle.std.specs.Prelude.{◌≡◌, true, MatchOption};
ghost use Rattle.field.specs.Front.{tag_of_front};
ghost use Rattle.found.specs.Finds.{Within, part};
ghost use Rattle.visits.specs.Visiting as Visiting;
ghost use Rattle.visits.specs.Visiting.{recording, entered, with_first, Spliced};

use field::reader::{Field, field_at};
use field::tags::{ARRAY, ELEMENT, FRAGMENT};
use found::{Found, Kind};
use records::Records;
use walk::state::{Seen, Walk};

pub fn records_of(st: Walk) -> Records
    ensures { result ≡ recording st }
{
    Records {
        next: st.later,
        place: st.templates,
        due: st.seen.due,
    }
}

pub fn recorded(st: Walk, k: Records) -> Walk
    ensures { result ≡ entered k st }
{
    Walk {
        first: st.later,
        later: k.next,
        templates: k.place,
        seen: Seen {
            due: k.due,
            ..st.seen
        },
        ..st
    }
}

pub fn returned(st: Walk, first: usize) -> Walk
    ensures { result ≡ with_first first st }
{
    Walk { first, ..st }
}

// Whether a fragment leaves what its children give: nothing, or a tag.
pub fn is_left(f: Found, s: &[u8]) -> bool
    requires { Within f s.now }
    ensures { result ≡ Visiting.is_left f.kind (part s.now f) }
{
    match f.kind {
        Kind::Nothing => true,
        Kind::Expr => matches!(
            field_at(f.part(s)),
            Some(Field {
                tag: ELEMENT | FRAGMENT,
                ..
            })
        ),
        _ => false,
    }
}

// Whether children give something.
pub fn is_found(f: Found) -> bool
    ensures { result ≡ Visiting.is_found f.kind }
{
    !matches!(f.kind, Kind::Nothing)
}

// The elements of the array literal in front, where it is spliced.
pub fn elements(u: &[u8], splice: bool) -> Option<&[u8]>
    ensures { MatchOption result (splice ≡ true → tag_of_front u.now ≡ 0x76 → ⊥) (λ w. Spliced u.now splice w.now) }
{
    match field_at(u) {
        Some(Field { tag: ARRAY, body }) if splice => Some(body),
        _ => None,
    }
}
