// The names of 02 and 03: in their series one after the other, in an index by their hashes (specs/Index.antt).
ghost use Rattle.std.specs.Prelude.{◌≡◌, ◌∷◌, ◌++◌, ℕ, ◌+◌, ◌*◌, ◌<◌, ◌≤◌, length, get_or};
ghost use Rattle.field.specs.Bytes.{Bytes, among, pick, same};
ghost use Rattle.field.specs.Row.{read};
ghost use Rattle.names.specs.Names.{normalize_dom_attr_name};
ghost use Rattle.names.specs.Table.{read_as};
ghost use Rattle.page.specs.Tree.{texts_in};
ghost use Rattle.decisions.specs.Index.{hash_from, hash, two_at, name_at, link_of, chain, names_of, linked};

use field::HEAD;
use field::reader::{Fields, body};
use field::tags::SOURCE;
use field::writer::{put_bytes, put_two};
use names::{letter, namespaced_is, same_bytes};
use page::MAX_OPTIONS;

// How many hashes there are, and how many entries: options have no more names.
const HASHES: usize = 1024;

const ENTRIES: usize = 1366;

// Where in an index the numbers of an entry before it and of its name's place begin, behind a number for each hash; and where the series does.
const BEFORE_AT: usize = 2 * HASHES;

const PLACE_AT: usize = BEFORE_AT + 2;

const SERIES_AT: usize = BEFORE_AT + 4 * ENTRIES;

// How long an index is.
pub const INDEX_ROOM: usize = SERIES_AT + MAX_OPTIONS;

// A name that is looked for, by the bytes that it stands for.
trait Asked {
    ghost bytes: { Self → Bytes };

    fn is(&self, name: &[u8]) -> bool
        ensures { result ≡ same (bytes self.now) name.now };

    fn hash(&self) -> usize
        ensures { (result ≡ hash (bytes self.now)) × (result < 1024) };
}

// As it is written.
#[derive(Clone, Copy)]
struct Written<'a> {
    name: &'a [u8],
}

impl<'a> Asked for Written<'a> {
    ghost bytes = { λ w. w.name.now };

    fn is(&self, name: &[u8]) -> bool {
        same_bytes(self.name, name)
    }

    fn hash(&self) -> usize {
        hash_on(0, self.name, false)
    }
}

// ns:name, normalised.
#[derive(Clone, Copy)]
struct Namespaced<'a> {
    ns: &'a [u8],
    name: &'a [u8],
}

impl<'a> Asked for Namespaced<'a> {
    ghost bytes = { λ n. normalize_dom_attr_name (n.ns.now ++ (58 ∷ n.name.now)) };

    fn is(&self, name: &[u8]) -> bool {
        namespaced_is(self.ns, self.name, name)
    }

    fn hash(&self) -> usize {
        hash_namespaced(self.ns, self.name)
    }
}

// Whether a series of 20s has the name.
fn in_series<N: Asked>(list: &[u8], asked: &N) -> bool
    ensures { result ≡ among (N.bytes asked.now) (texts_in 0x20 (read list.now)) }
{
    Fields(list).any(|field| field.tag == SOURCE && asked.is(field.body))
}

// The hash of s, or of its small letters, behind what gave h.
#[tactic(auto, using(crate::proofs::IndexLaws::read_on, crate::proofs::IndexLaws::read_end))]
fn hash_on(h: usize, s: &[u8], small: bool) -> usize
    requires { h < 1024 }
    ensures { (result ≡ hash_from h (read_as small s.now)) × (result < 1024) }
{
    let mut x = h;
    for c in s {
        x = (x * 31 + usize::from(letter(*c, small))) % HASHES;
    }
    x
}

// The hash of ns:name, normalised.
fn hash_namespaced<'a>(ns: &'a [u8], name: &'a [u8]) -> usize
    ensures { (result ≡ hash (normalize_dom_attr_name (ns.now ++ (58 ∷ name.now)))) × (result < 1024) }
{
    if namespaced_is(ns, name, b"href") {
        return hash_on(0, b"href", false);
    }
    let a = hash_on(0, ns, true);
    let b = hash_on(a, b":", false);
    hash_on(b, name, true)
}

// The number in two bytes, or 0 past the end. By `get` and a pattern, pages of elements under a full 02 of one hash take 1.31 times the instructions.
fn two_at(b: &[u8], i: usize) -> usize
    ensures { (result ≡ two_at b.now i) × (result < 65536) }
{
    if i < b.len() && 1 < b.len() - i {
        usize::from(u16::from_be_bytes([b[i], b[i + 1]]))
    } else {
        0
    }
}

// An index. Its two tables stand in bytes, as the series does: all that is promised of names is promised of bytes that list them, and `finds` alone
// tells the two apart. An enum of a series and of tables would stand in each of those clauses, up to the transform, and be matched here only.
#[derive(Clone, Copy)]
struct Index<'a>(&'a [u8]);

impl<'a> Index<'a> {
    // The entry in the two bytes at i, which hold its number and one.
    fn link_at(self, i: usize) -> Option<usize>
        ensures value { link_of result ≡ two_at self.entry.0.now i }
        ensures within { link_of result < 65536 }
    {
        two_at(self.0, i).checked_sub(1)
    }

    // The name of entry k.
    fn name(self, k: usize) -> &'a [u8]
        requires { k < 65535 }
        ensures { result.now ≡ name_at self.entry.0.now k }
    {
        let place = SERIES_AT + two_at(self.0, PLACE_AT + 4 * k);
        body(&self.0[place.min(self.0.len())..])
    }

    // Whether one of the names with that hash is it.
    fn has<N: Asked>(self, asked: &N) -> bool
        ensures { result ≡ among (N.bytes asked.now) (chain 1366 self.entry.0.now (two_at self.entry.0.now (2 * hash (N.bytes asked.now)))) }
    {
        let mut next = self.link_at(2 * asked.hash());
        // no chain has more entries; in bytes that are no index one may run in a circle
        for passed in 0..ENTRIES {
            let Some(k) = next else {
                return false;
            };
            if asked.is(self.name(k)) {
                return true;
            }
            next = self.link_at(BEFORE_AT + 4 * k);
        }
        false
    }
}

// The names of a series that is not empty, or of an index.
fn finds<N: Asked>(list: &[u8], asked: &N) -> bool
    ensures { result ≡ among (N.bytes asked.now) (names_of list.now) }
{
    if list.len() <= MAX_OPTIONS {
        in_series(list, asked)
    } else {
        Index(list).has(asked)
    }
}

// Most options list nothing: that is seen before a call is made.
pub fn lists(list: &[u8], name: &[u8]) -> bool
    ensures { result ≡ among name.now (names_of list.now) }
{
    !list.is_empty() && finds(list, &Written { name })
}

// Whether ns:name, normalised, is listed.
pub fn lists_namespaced<'a>(list: &'a [u8], ns: &'a [u8], name: &'a [u8]) -> bool
    ensures { result ≡ among (normalize_dom_attr_name (ns.now ++ (58 ∷ name.now))) (names_of list.now) }
{
    finds(list, &Namespaced { ns, name })
}

// Entry k, of that hash, with the name at that place.
fn link(out: &mut [u8], h: usize, k: usize, place: usize)
    requires { (h < 1024) × ((k < 1366) × (place < 65536)) }
    ensures { out.new ≡ linked out.old h k place }
{
    let last = two_at(out, 2 * h);
    put_two(out, BEFORE_AT + 4 * k, last);
    put_two(out, PLACE_AT + 4 * k, place);
    put_two(out, 2 * h, k + 1);
}

// The index of a series.
pub fn index_names(list: &[u8], out: &mut [u8])
    requires { (length list.now ≤ 4096) × ((length out.old ≡ 11608) × ((i : ℕ) → get_or out.old i 0 ≡ 0)) }
    ensures { (n : Bytes) → among n (names_of out.new) ≡ among n (texts_in 0x20 (read list.now)) }
{
    put_bytes(out, SERIES_AT, list);
    let mut k = 0;
    let mut place = 0;
    for field in Fields(list) {
        if field.tag == SOURCE {
            link(out, hash_on(0, field.body, false), k, place);
            k += 1;
        }
        place += HEAD + field.body.len();
    }
}
