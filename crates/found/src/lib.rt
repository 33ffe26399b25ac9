// What the children of a call give, as one expression: what it is and where it stands, found without writing it.
#![tactic(auto)]

ghost use Rattle.std.specs.Prelude.{◌≡◌, ◌+◌, ◌<◌, ◌^◌, length};
ghost use Rattle.field.specs.Bytes.{Bytes};
ghost use Rattle.field.specs.Row.{read};
ghost use Rattle.page.specs.Tree.{contained_in};
ghost use Rattle.found.specs.Finds.{Within, part, placed, Runs, Enters, Finds, Flattened, Spliced, Narrowed, KnownOf, item_count, joined_of, then_found, run_found, is_settled, is_most, known_around, entries_at, found_at};

use decisions::children::{Count, becomes_template, children_at};
use decisions::expr::{Shape, shape_at};
use field::HEAD;
use field::reader::{Field, Fields, body, field_at};
use field::tags::{ARRAY, ARRAY_SPREAD, CONTAINER, ELEMENT, FRAGMENT, HOLE, TEXT};
use text::jsx_text::is_blank;

// 01, What must change shape: "`Option<Expr>` becomes an enum with a place". So no expression is a kind like the others, and not an Option of
// the rest.
#[derive(Clone, Copy)]
pub enum Kind {
    // no expression
    Nothing,
    // an array of no elements
    Empty,
    // an array of several, those of the children in the place; a place of no bytes, which is never answered, stands for none, since a kind of
    // its own would be one more for each caller to tell apart. The number says for how many levels it is known of the fragment that is more than
    // half of the children around it that it gives several too, so that none of these levels is gone through again when its entries are written
    Many(usize),
    // a run of texts, among the children in the place
    Run,
    // a text alone, in front of the place
    Text,
    // an element, in front of the place
    Element,
    // a template of the children in the place
    Template,
    // an expression, in front of the place
    Expr,
    // an element of an array, in front of the place
    Item,
    // an array of one hole
    Hole,
}

// The place is a part of the slice that was looked at, by numbers: who takes one has the slice too, since what it stands for is said of the
// slice's children. It stands beside the kind and not in each case of it, since it is moved and cut alike whatever the kind is.
#[derive(Clone, Copy)]
pub struct Found {
    pub kind: Kind,
    pub from: usize,
    pub len: usize,
}

impl Found {
    // What stands at the place.
    pub fn part(self, s: &[u8]) -> &[u8]
        requires { Within self s.now }
        ensures { result.now ≡ part s.now self }
    {
        &s[self.from..self.from + self.len]
    }

    // A place in a part that begins at `from`, as a place in the whole.
    fn inside(self, from: usize) -> Found
        requires { from + self.from < 2 ^ 63 }
        ensures { result ≡ placed self.kind (from + self.from) self.len }
    {
        Found {
            from: from + self.from,
            ..self
        }
    }
}

// What a container adds to a run.
#[derive(Clone, Copy)]
enum Joined {
    Nothing,
    Something,
    // the run ends
    Apart,
}

#[tactic(auto, using(crate::proofs::JoinLaws::joined_shape))]
fn joined_at(c: &[u8]) -> Joined
    ensures { result ≡ joined_of (contained_in (read c.now)) }
{
    match shape_at(c) {
        Shape::Empty | Shape::Boolean(_) => Joined::Nothing,
        Shape::String if body(c).is_empty() => Joined::Nothing,
        Shape::String | Shape::Number => Joined::Something,
        Shape::Null | Shape::Literal | Shape::Minus | Shape::Other => Joined::Apart,
    }
}

// How many elements an array literal has.
#[tactic(auto, using(crate::proofs::ItemLaws::count_none, crate::proofs::ItemLaws::count_one, crate::proofs::ItemLaws::count_more))]
fn item_count(s: &[u8]) -> Count
    ensures { result ≡ item_count (read s.now) }
{
    let mut items = Fields(s);
    match (items.next(), items.next()) {
        (None, _) => Count::Zero,
        (Some(_), None) => Count::One,
        (Some(_), Some(_)) => Count::More,
    }
}

// A part that begins at `from`, as a place of that kind.
fn place(kind: Kind, from: usize, part: &[u8]) -> Found
    ensures { result ≡ placed kind from (length part.now) }
{
    Found {
        kind,
        from,
        len: part.len(),
    }
}

// No place.
fn nowhere(kind: Kind) -> Found
    ensures { result ≡ placed kind 0 0 }
{
    place(kind, 0, &[])
}

// The only entry, taken out of its array: a spread is dropped, a hole stays.
fn flattened(s: &[u8], f: Found) -> Found
    requires { Within f s.now }
    ensures { Within result s.now × Flattened s.now f result }
{
    match f.kind {
        Kind::Item => match field_at(f.part(s)) {
            Some(
                Field {
                    tag: ARRAY_SPREAD,
                    body,
                },
            ) => place(Kind::Expr, f.from + HEAD, body),
            Some(Field { tag: HOLE, .. }) => Found {
                kind: Kind::Hole,
                ..f
            },
            _ => Found {
                kind: Kind::Expr,
                ..f
            },
        },
        // No guard: the arm below it would not learn what the kind is not.
        Kind::Many(_) => {
            if f.len == 0 {
                place(Kind::Many(0), 0, s)
            } else {
                f
            }
        }
        _ => f,
    }
}

// What a fragment adds to the entries of its parent.
fn spliced(s: &[u8], f: Found) -> Found
    requires { Within f s.now }
    ensures { Within result s.now × Spliced s.now f result }
{
    match f.kind {
        Kind::Nothing => nowhere(Kind::Empty),
        Kind::Expr => match field_at(f.part(s)) {
            Some(Field { tag: ARRAY, body }) => match item_count(body) {
                Count::Zero => nowhere(Kind::Empty),
                Count::One => place(Kind::Item, f.from + HEAD, body),
                Count::More => nowhere(Kind::Many(0)),
            },
            _ => f,
        },
        _ => f,
    }
}

// Entries, and others behind them.
#[tactic(auto, unfolding(crate::specs::Finds::is_empty))]
fn then(a: Found, b: Found) -> Found
    ensures { result ≡ then_found a b }
{
    match (a.kind, b.kind) {
        (Kind::Empty, _) => b,
        (_, Kind::Empty) => a,
        _ => nowhere(Kind::Many(0)),
    }
}

// The entries so far with the run behind them, which stands among the children in s.
fn with_run(a: Found, run: bool, s: &[u8]) -> Found
    ensures { result ≡ run_found a run (length s.now) }
{
    if run {
        then(a, place(Kind::Run, 0, s))
    } else {
        a
    }
}

// Several, and no place: what stands behind does not matter.
#[tactic(auto, unfolding(crate::specs::Finds::is_settled))]
fn is_settled(f: Found) -> bool
    ensures { result ≡ is_settled f.kind f.len }
{
    matches!(f.kind, Kind::Many(_)) && f.len == 0
}

// Whether a fragment is more than half of the children around it: no two that stand beside each other are.
fn is_most(s: &[u8], b: &[u8]) -> bool
    requires { length b.now < 2 ^ 62 }
    ensures { result ≡ is_most (length s.now) (length b.now) }
{
    s.len() < b.len() + b.len()
}

// For how many levels several entries are known of the children in s, by those of the fragment b among them, which stand in a place of so many
// bytes. That there are fewer levels than bytes is tested here, once a level, so that no contract has to speak of it.
fn known_around(s: &[u8], b: &[u8], len: usize, known: usize) -> usize
    requires { length b.now < 2 ^ 62 }
    ensures { result ≡ known_around (length s.now) (length b.now) len known }
{
    if len == b.len() && is_most(s, b) && known < s.len() {
        known + 1
    } else {
        0
    }
}

// The entries of merged children: none, one and where it stands, or several, with a place where a fragment gives them.
#[cycle(found)]
fn entries_of(skip: &[u8], s: &[u8]) -> Found
    requires { length s.now < 2 ^ 62 }
    ensures { Within result s.now × ((props : Bytes) → Enters skip.now props (Runs skip.now props) (entries_at skip.now props s.now) result.kind (part s.now result)) }
{
    let mut run = false;
    let mut cur = nowhere(Kind::Empty);
    let mut fields = Fields(s);
    while let Some(field) = fields.next() {
        let b = field.body;
        // The field's place, by what is left behind it: what was left before it would be one more variable, set in each turn.
        let at = s.len() - fields.0.len() - b.len() - HEAD;
        let x = match field.tag {
            TEXT => {
                // a run that has something needs no test
                if run || is_blank(b, false) {
                    continue;
                }
                run = true;
                continue;
            }
            CONTAINER => match joined_at(b) {
                Joined::Nothing => continue,
                Joined::Something => {
                    run = true;
                    continue;
                }
                Joined::Apart => place(Kind::Expr, at + HEAD, b),
            },
            ELEMENT => place(Kind::Element, at, &s[at..]),
            FRAGMENT => {
                let f = found_of(skip, b);
                if let Kind::Many(known) = f.kind {
                    return place(Kind::Many(known_around(s, b, f.len, known)), 0, s);
                }
                spliced(b, f).inside(at + HEAD)
            }
            _ => continue,
        };
        cur = then(with_run(cur, run, s), x);
        run = false;
        if is_settled(cur) {
            return cur;
        }
    }
    with_run(cur, run, s)
}

// serialize_jsx_children_to_expr
#[cycle(found)]
pub fn found_of(skip: &[u8], s: &[u8]) -> Found
    requires { length s.now < 2 ^ 62 }
    ensures { Within result s.now × ((props : Bytes) → Finds skip.now props (found_at skip.now props s.now) result.kind (part s.now result)) }
{
    // Not `children_of`: it does not tell where the child stands, and that is answered.
    let a = children_at(s);
    let mut rest = Fields(a);
    let Some(child) = rest.next() else {
        return nowhere(Kind::Nothing);
    };
    if children_at(rest.0).is_empty() {
        let at = s.len() - a.len();
        let b = child.body;
        return match child.tag {
            TEXT => place(Kind::Text, at, a),
            CONTAINER => match field_at(b) {
                Some(_) => place(Kind::Expr, at + HEAD, b),
                None => nowhere(Kind::Nothing),
            },
            ELEMENT => place(Kind::Element, at, a),
            FRAGMENT => {
                let f = found_of(skip, b);
                if let Kind::Many(known) = f.kind {
                    return place(Kind::Many(known_around(a, b, f.len, known)), at, a);
                }
                f.inside(at + HEAD)
            }
            _ => nowhere(Kind::Nothing),
        };
    }
    if becomes_template(skip, s) {
        return place(Kind::Template, 0, s);
    }
    flattened(s, entries_of(skip, s))
}

// Where the several entries of the children in b stand, of which so many levels are known: a fragment that is all there is in another has the
// entries of both, so no such level is entered. Entered one by one, 43 of them around a text and an empty array took 1.8 times as long.
fn innermost(b: &[u8], known: usize) -> Found
    requires { length b.now < 2 ^ 62 }
    ensures { Within result b.now × Narrowed known b.now result }
{
    let mut t = b;
    let mut left = known;
    while 0 < left {
        let mut fields = Fields(t);
        match fields.next() {
            Some(
                Field {
                    tag: FRAGMENT,
                    body,
                },
            ) if fields.0.is_empty() && is_most(t, body) => {
                t = body;
                left -= 1;
            }
            _ => break,
        }
    }
    place(Kind::Many(left), b.len() - t.len(), t)
}

// The same of a fragment among the children in s, of which so many levels are known.
pub fn found_in(skip: &[u8], s: &[u8], b: &[u8], known: usize) -> Found
    requires { (length b.now < 2 ^ 62) × KnownOf known skip.now (length s.now) b.now }
    ensures { Within result b.now × ((props : Bytes) → Finds skip.now props (found_at skip.now props b.now) result.kind (part b.now result)) }
{
    if 0 < known && is_most(s, b) {
        innermost(b, known - 1)
    } else {
        found_of(skip, b)
    }
}
