// Document 02, A4: whether two attributes of an element have one name in HTML, compared in small letters. Nowhere is such a name written
// out: it is read letter by letter, with the signs that normalising puts in, and two names are compared as they are read.
ghost use Rattle.std.specs.Prelude.{◌≡◌, true, false, ◌+◌, ◌<◌, ◌^◌, length, take};
ghost use Rattle.std.specs.Iterator.{YieldsFirst, item_count};
ghost use Rattle.field.specs.Bytes.{same, among};
ghost use Rattle.field.specs.Row.{read};
ghost use Rattle.names.specs.Names.{ident, namespaced, small_letters};
ghost use Rattle.page.specs.Tree.{attributes_in, attr_name_in};
ghost use Rattle.decisions.specs.Repeats.{IsPlain, letters, sign_read, html_name, html_names, name_in, names_in, repeats, name_hash, Keyed, key_by, ends_key_by, EndsKeyed, ShortIdent, Told};

use crate::attribute::{AttrName, Attributes, attr_name_at, ident_at};
use field::reader::{Field, Fields};
use field::tags::{ATTRIBUTE, SPREAD};
use names::{Spelling, is_plain, is_xlink_href, small_letter, spelling_of};

// A name as it is read for HTML, in small letters: each capital of the first part behind the sign, where there is one; then, where there
// is a second part, a colon and that.
#[derive(Clone, Copy)]
pub struct Spelled<'a> {
    pub sign: Option<u8>,
    pub first: &'a [u8],
    pub second: Option<&'a [u8]>,
    // whether the sign before the first letter has been read
    pub behind_sign: bool,
}

impl<'a> Spelled<'a> {
    fn plain(name: &'a [u8]) -> Spelled<'a>
        ensures { IsPlain name.now result }
    {
        Spelled {
            sign: None,
            first: name,
            second: None,
            behind_sign: false,
        }
    }

    // The sign that is read before the letter c.
    fn sign_before(self, c: u8) -> Option<u8>
        ensures { result ≡ sign_read self.entry.sign c self.entry.behind_sign }
    {
        if !self.behind_sign && c.is_ascii_uppercase() {
            self.sign
        } else {
            None
        }
    }

    fn is(self, other: Spelled<'a>) -> bool
        ensures { result ≡ same (letters self.entry) (letters other.entry) }
    {
        self.eq(other)
    }

    // Of two names that are one, one number below 2^32.
    fn hash(self) -> usize
        ensures { result ≡ name_hash (letters self.entry) }
    {
        if self.sign.is_none() && self.second.is_none() && !self.behind_sign {
            return hash_small(self.first);
        }
        let mut h: usize = 0;
        for c in self {
            h = (h * 37 + usize::from(c) + 1) % 4294967296;
        }
        h
    }
}

// Of a name that only goes to small letters, as nearly all do: letter by letter of `Spelled`, elements of 33 attributes took a fifth more.
fn hash_small(name: &[u8]) -> usize
    ensures { result ≡ name_hash (small_letters name.now) }
{
    let mut h: usize = 0;
    for c in name {
        h = (h * 37 + usize::from(small_letter(*c)) + 1) % 4294967296;
    }
    h
}

// Letter by letter.
impl<'a> Iterator for Spelled<'a> {
    type Item = u8;

    ghost next_gives = { YieldsFirst letters };

    ghost remaining = { item_count letters };

    fn next(&mut self) -> Option<u8> {
        let name = *self;
        let [c, rest @ ..] = name.first else {
            *self = Spelled::plain(name.second?);
            return Some(b':');
        };
        if let Some(sign) = name.sign_before(*c) {
            self.behind_sign = true;
            return Some(small_letter(sign));
        }
        self.first = rest;
        self.behind_sign = false;
        Some(small_letter(*c))
    }
}

// No name of the table in names is longer.
const MOST: usize = 26;

// The name that the identifier n has in HTML. `is_plain` reads to the end, so it goes first for short names alone: for longer ones `spelling_of` looks
// at the length. Asked of all, an element full of names of 128 letters and one hash takes 38.5 million instructions for 6.3.
fn of_ident(n: &[u8]) -> Spelled<'_>
    ensures { letters result ≡ html_name (ident n.now) }
{
    if n.len() <= MOST && is_plain(n) {
        return Spelled::plain(n);
    }
    match spelling_of(n) {
        Spelling::Whole(w) => Spelled::plain(w),
        Spelling::Signed(sign) => Spelled {
            sign: Some(sign),
            ..Spelled::plain(n)
        },
        Spelling::Small => Spelled::plain(n),
    }
}

// That of ns:name.
fn of_pair<'a>(ns: &'a [u8], name: &'a [u8]) -> Spelled<'a>
    ensures { letters result ≡ html_name (namespaced ns.now name.now) }
{
    if is_xlink_href(ns, name) {
        Spelled::plain(b"href")
    } else {
        Spelled {
            second: Some(name),
            ..Spelled::plain(ns)
        }
    }
}

// That of the attribute with the fields a.
fn of_attr(a: &[u8]) -> Spelled<'_>
    ensures { letters result ≡ name_in a.now }
{
    match attr_name_at(a) {
        AttrName::Ident(n) => of_ident(n),
        AttrName::Namespaced(ns, n) => of_pair(ns, n),
    }
}

// Whether one of the first k attributes of s has the name of a.
fn earlier_has<'a>(s: &'a [u8], k: usize, a: &'a [u8]) -> bool
    ensures { result ≡ among (name_in a.now) (take k (names_in s.now)) }
{
    let name = of_attr(a);
    Attributes(s).take(k).any(|b| name.is(of_attr(b)))
}

// Whether two attributes in front of s have one name. Each name is noted as it comes, under both halves of its hash, and only for one whose
// places are both taken are those before it gone through: so thousands of attributes cost no search for each.
fn by_hashes<'a>(s: &'a [u8], low: &'a mut [bool], high: &'a mut [bool]) -> bool
    requires { (0 < length low.old) × (0 < length high.old) }
    ensures { result ≡ repeats (names_in s.now) }
{
    for (k, a) in Attributes(s).enumerate() {
        let hash = of_attr(a).hash();
        let i = hash % low.len();
        let j = hash / 65536 % high.len();
        if low[i] && high[j] && earlier_has(s, k, a) {
            return true;
        }
        low[i] = true;
        high[j] = true;
    }
    false
}

// With two tables of N places. It is not merged into its caller: so the tables stand in no frame of the walks, which nest.
#[inline(never)]
fn by_tables_of<const N: usize>(s: &[u8]) -> bool
    requires { (0 < N) × (N < 2 ^ 63) }
    ensures { result ≡ repeats (names_in s.now) }
{
    let mut low = [false; N];
    let mut high = [false; N];
    by_hashes(s, &mut low, &mut high)
}

// The same with tables as large as so many attributes need: a table is cleared before it is used.
fn by_tables(s: &[u8]) -> bool
    ensures { result ≡ repeats (names_in s.now) }
{
    match Attributes(s).count() {
        0..=48 => by_tables_of::<512>(s),
        49..=300 => by_tables_of::<4096>(s),
        _ => by_tables_of::<65536>(s),
    }
}

// From the first letter c, the last but one p and the last d, a number below 64. In this form `className` and `class`, `htmlFor` and `for`,
// `xlinkHref` and `href` come to one number, and the names that pages have most to different ones.
fn key_by(c: u8, p: u8, d: u8) -> usize
    ensures { result ≡ key_by c p d }
{
    ((usize::from(c % 32) * 4 + 27) * (usize::from(d) + 14) + usize::from(p % 32) * 5) % 64
}

// A number below 64 that is one for names that are one, from letters as they are written. It is not told where the last is no small letter,
// since before a capital a hyphen may be put in: so `dangerouslySetInnerHTML` has none.
#[inline(always)]
pub(crate) fn key_of(a: &[u8]) -> Option<usize>
    ensures { Keyed a.now result }
{
    let name = ident_at(a)?;
    let (before, last) = match name {
        [] => return None,
        [last] => (1, *last),
        [.., before, last] => (*before, *last),
    };
    if last < b'a' {
        return None;
    }
    Some(key_by(name[0], before, last))
}

// What is told of the names of an element's attributes by a walk that is made for another question.
#[derive(Clone, Copy)]
pub enum Names {
    // no two are one
    Different,
    // they may be
    Unsure,
}

// IDENT and a length below 256.
const SHORT_IDENT: u16 = 0x4000;

// From the first letter c and the last d, a number below 64. In this form `className` and `class`, `htmlFor` and `for`, `xlinkHref` and `href` come
// to one number, and 32 more at either letter, as a small letter has, change nothing.
fn ends_key_by(c: u8, d: u8) -> u32
    ensures { result ≡ ends_key_by c d }
{
    (u32::from(c) * 16 + 135) * (u32::from(d % 32) + 14) / 8 % 64
}

// The identifier that an attribute's name is, where its length fits a byte; so tag and length are one number of two bytes. None tells nothing.
#[inline(always)]
fn short_ident(a: &[u8]) -> Option<&[u8]>
    ensures { ShortIdent a.now result }
{
    let [tag, high, low, rest @ ..] = a else {
        return None;
    };
    if u16::from_be_bytes([*tag, *high]) != SHORT_IDENT {
        return None;
    }
    let n = usize::from(*low);
    if n <= rest.len() {
        Some(&rest[..n])
    } else {
        None
    }
}

// A number below 64 that is one for names that are one, by their ends as they are written: it takes half of what `key_of` takes, so it goes first.
#[inline(always)]
pub(crate) fn ends_key(a: &[u8]) -> Option<u32>
    ensures { EndsKeyed a.now result }
{
    let name = short_ident(a)?;
    let n = name.len();
    if n == 0 {
        return None;
    }
    Some(ends_key_by(name[0], name[n - 1]))
}

// Whether two attributes in front of s have one name, where nothing was told. Most elements have none or one: then its second field is no attribute.
// Neither it nor `unsure` is merged into the walks: the mean set takes 0.3 % more then (7,419,367 instructions for 7,398,205, unproved code).
#[inline(never)]
fn repeats_in(s: &[u8]) -> bool
    ensures { result ≡ repeats (html_names (attributes_in (read s.now))) }
{
    match Fields(s).nth(1) {
        Some(
            Field {
                tag: ATTRIBUTE | SPREAD,
                ..
            },
        ) => by_tables(s),
        _ => false,
    }
}

// Whether two attributes in front of s have one name, by what was told of them.
#[tactic(auto, unfolding(crate::specs::Repeats::Told))]
pub fn repeats(names: Names, s: &[u8]) -> bool
    requires { Told s.now names }
    ensures { result ≡ repeats (html_names (attributes_in (read s.now))) }
{
    match names {
        Names::Different => false,
        Names::Unsure => repeats_in(s),
    }
}
