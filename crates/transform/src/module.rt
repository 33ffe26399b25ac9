// visit_mut_module and inject_runtime: the items, where the templates go among them, and the import. No page is walked twice.
ghost use Rattle.std.specs.Prelude.{◌≡◌, ◌+◌, ◌≤◌, ◌<◌, ◌^◌, false, [], ◌++◌, length};
ghost use Rattle.field.specs.Bytes.{Bytes, among};
ghost use Rattle.field.specs.Row.{read};
ghost use Rattle.page.specs.Tree.{texts_in, listed_in, pieces_in, module_items_in, page_in};
ghost use Rattle.field.specs.Put.{put, Wrote};
ghost use Rattle.decisions.specs.At.{opts, under};
ghost use Rattle.walk.specs.See.{at, see};
ghost use Rattle.visits.specs.Visiting.{Room};
ghost use Rattle.transform.specs.Run.{item_mid, module_mid, items_mid, Splits, has_html, piece_html, started, import_bytes, sum_of, Headed, transformed_page, Lists, Ready};

use crate::options::{names_in, room, source};
use decisions::element::is_serializable;
use decisions::index::{INDEX_ROOM, index_names};
use decisions::options::Options;
use field::HEAD;
use field::reader::{Fields, body};
use field::tags::{
    ATTRIBUTES_NOT_SERIALIZED, ELEMENT, ELEMENTS_NOT_SERIALIZED, EMPTY_STATEMENT, EXPORT, IMPORT,
    STATEMENT, STATIC_STRING, TEMPLATES_HERE,
};
use field::writer::{put_byte, put_bytes, put_head};
use records::moves::move_up;
use strings::due::Due;
use visits::on_pieces;
use walk::state::{Seen, Walk, at_page, begin, close, leaf};

// Up to so many bytes a list is looked through as it stands: filling an index would take longer.
const SHORT_LIST: usize = 32;

// An item with that tag and pieces b.
fn visit_item(
    options: &Options<'_>,
    b: &[u8],
    tag: u8,
    scratch: &mut [u8],
    templates: &mut [u8],
    page: &mut [u8],
    st: Walk,
) -> Walk
    requires { Room scratch.old b.now (see (item_mid (under options.now opts) tag (read b.now)) (at templates.old page.old st)) }
    ensures { at templates.new page.new result ≡ see (item_mid (under options.now opts) tag (read b.now)) (at templates.old page.old st) }
{
    let p = st.page;
    let x = on_pieces(options, b, scratch, templates, page, begin(st));
    close(page, x, p, tag)
}

// Items.
fn visit_module(
    options: &Options<'_>,
    s: &[u8],
    scratch: &mut [u8],
    templates: &mut [u8],
    page: &mut [u8],
    st: Walk,
) -> Walk
    requires { Room scratch.old s.now (see (module_mid (under options.now opts) false (module_items_in (read s.now))) (at templates.old page.old st)) }
    ensures { at templates.new page.new result ≡ see (module_mid (under options.now opts) false (module_items_in (read s.now))) (at templates.old page.old st) }
{
    let mut cur = st;
    for item in Fields(s) {
        cur = match item.tag {
            EXPORT..=STATEMENT => visit_item(
                options, item.body, item.tag, scratch, templates, page, cur,
            ),
            _ => leaf(page, cur, EMPTY_STATEMENT, b""),
        };
    }
    cur
}

// The items before the first 10 or 12, and that one with those behind it; where there is none, no items, and all.
fn split_items(s: &[u8]) -> (&[u8], &[u8])
    ensures { Splits s.now result.0.now result.1.now }
{
    // counted: the loop's own iterator is past the item, and what was left before it would be kept in a variable just the same
    let mut at: usize = 0;
    for item in Fields(s) {
        match item.tag {
            EXPORT | STATEMENT => return s.split_at(at),
            _ => at += HEAD + item.body.len(),
        }
    }
    (&[], s)
}

// All items, with the place of the templates: before the first 10 or 12, or, where there is none, before all.
fn visit_items(
    options: &Options<'_>,
    s: &[u8],
    scratch: &mut [u8],
    templates: &mut [u8],
    page: &mut [u8],
    st: Walk,
) -> Walk
    requires { Room scratch.old s.now (see (items_mid (under options.now opts) (module_items_in (read s.now))) (at templates.old page.old st)) }
    ensures { at templates.new page.new result ≡ see (items_mid (under options.now opts) (module_items_in (read s.now))) (at templates.old page.old st) }
{
    let (before, rest) = split_items(s);
    let a = visit_module(options, before, scratch, templates, page, st);
    let b = leaf(page, a, TEMPLATES_HERE, b"");
    visit_module(options, rest, scratch, templates, page, b)
}

// Whether an element that becomes a template stands among the pieces of an item: then templates are recorded, and helpers imported. Most
// pages show it at once, and both heads are written where they stand.
fn has_html(skip: &[u8], s: &[u8]) -> bool
    ensures { result ≡ has_html (opts skip.now []) (module_items_in (read s.now)) }
{
    Fields(s).any(|item| matches!(item.tag, EXPORT..=STATEMENT) && has_html_piece(skip, item.body))
}

// Among the pieces themselves. Not one walk with the items': it would ask at each field which of the two it walks.
fn has_html_piece(skip: &[u8], s: &[u8]) -> bool
    ensures { result ≡ piece_html (opts skip.now []) (pieces_in (read s.now)) }
{
    Fields(s).any(|piece| piece.tag == ELEMENT && is_serializable(skip, piece.body))
}

fn start(p: usize) -> Walk
    ensures { result ≡ started p }
{
    let seen = Seen {
        jsx: false,
        attr: false,
        escape: false,
        due: Due::Nothing,
    };
    Walk {
        first: 1,
        later: 1,
        templates: 0,
        page: p,
        seen,
    }
}

// The sum of the helpers called.
fn helper_sum(w: Walk) -> u8
    ensures { result ≡ sum_of w }
{
    let s = w.seen;
    u8::from(s.jsx) + 2 * u8::from(1 < w.later) + 4 * u8::from(s.attr) + 8 * u8::from(s.escape)
}

// The source in an 82: behind its head, and that of the 81.
const SOURCE_AT: usize = 2 * HEAD;

// 82: the source, `/jsx-runtime` and the sum.
fn put_import(page: &mut [u8], source: &[u8], sum: u8) -> usize
    requires { length source.now < 2 ^ 32 }
    ensures { Wrote page.old 0 (import_bytes source.now sum) page.new result }
{
    let a = put_bytes(page, SOURCE_AT, source);
    let b = put_bytes(page, a, b"/jsx-runtime");
    put_head(page, HEAD, STATIC_STRING, b - SOURCE_AT);
    let c = put_byte(page, b, sum);
    put_head(page, 0, IMPORT, c - HEAD);
    c
}

// How long the 82 is: two heads, `/jsx-runtime` and the sum, and the source. That the source is short is the options': of any slice a place behind
// it could not be reckoned with.
fn import_len(source: &[u8]) -> usize
    requires { length source.now < 2 ^ 32 }
    ensures { result ≡ 19 + length source.now }
{
    19 + source.len()
}

// The 82 and the 83, where they turn out to be due: what is written makes room for them. Each byte moves once.
fn put_heads(page: &mut [u8], source: &[u8], w: Walk, p: usize) -> Walk
    requires { (p ≤ w.page) × ((w.page < 2 ^ 62) × (length source.now < 2 ^ 32)) }
    ensures { (o a b : Bytes) → page.old ≡ put o 0 (a ++ b) → p ≡ length a → w.page ≡ length a + length b → Headed source.now w o a b page.new result }
{
    let sum = helper_sum(w);
    if 1 < w.later {
        let n = import_len(source);
        move_up(page, p, w.page, n + HEAD);
        put_head(page, p + n, TEMPLATES_HERE, 0);
        move_up(page, 0, p, n);
        put_import(page, source, sum);
        return at_page(w, w.page + n + HEAD);
    }
    if sum == 0 {
        return w;
    }
    let n = import_len(source);
    move_up(page, 0, w.page, n);
    put_import(page, source, sum);
    at_page(w, w.page + n)
}

// Both outputs, as far as they fit; and the state behind them.
pub fn write_page(
    input: &[u8],
    options: &[u8],
    scratch: &mut [u8],
    templates: &mut [u8],
    page: &mut [u8],
) -> Walk
    requires { Ready input.now options.now (length scratch.old) }
    ensures { at templates.new page.new result ≡ transformed_page options.now (page_in (read input.now)) templates.old page.old }
{
    let names = Options {
        skip: names_in(options, ELEMENTS_NOT_SERIALIZED),
        props: names_in(options, ATTRIBUTES_NOT_SERIALIZED),
    };
    if names.skip.len() <= SHORT_LIST && names.props.len() <= SHORT_LIST {
        write_listed(input, options, &names, scratch, templates, page)
    } else {
        write_indexed(input, options, &names, scratch, templates, page)
    }
}

// By an index of each: where there are more than a few names, looking for one must not go through all of them.
fn write_indexed(
    input: &[u8],
    options: &[u8],
    names: &Options<'_>,
    scratch: &mut [u8],
    templates: &mut [u8],
    page: &mut [u8],
) -> Walk
    requires ready { Ready input.now options.now (length scratch.old) }
    requires skip_len_bound { (length names.now.skip.now ≤ 4096) × (length names.now.props.now ≤ 4096) }
    requires skip_value { (texts_in 0x20 (read names.now.skip.now) ≡ listed_in 2 (read options.now)) × (texts_in 0x20 (read names.now.props.now) ≡ listed_in 3 (read options.now)) }
    ensures { at templates.new page.new result ≡ transformed_page options.now (page_in (read input.now)) templates.old page.old }
{
    let mut elements = room::<INDEX_ROOM>();
    index_names(names.skip, &mut elements);
    let mut attributes = room::<INDEX_ROOM>();
    index_names(names.props, &mut attributes);
    let indexed = Options {
        skip: &elements,
        props: &attributes,
    };
    write_listed(input, options, &indexed, scratch, templates, page)
}

// By names that list what 02 and 03 do. Where no element shows the heads at once, the items are written without them.
fn write_listed(
    input: &[u8],
    options: &[u8],
    names: &Options<'_>,
    scratch: &mut [u8],
    templates: &mut [u8],
    page: &mut [u8],
) -> Walk
    requires ready { Ready input.now options.now (length scratch.old) }
    requires props_value { Lists names.now.skip.now names.now.props.now options.now }
    ensures { at templates.new page.new result ≡ transformed_page options.now (page_in (read input.now)) templates.old page.old }
{
    let s = body(input);
    let source = source(options);
    if has_html(names.skip, s) {
        let first = start(import_len(source));
        let w = visit_items(names, s, scratch, templates, page, first);
        put_import(page, source, helper_sum(w));
        return w;
    }
    let (before, rest) = split_items(s);
    let a = visit_module(names, before, scratch, templates, page, start(0));
    let w = visit_module(names, rest, scratch, templates, page, a);
    put_heads(page, source, w, a.page)
}
