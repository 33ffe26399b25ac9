// The card of the page of one item 12 that holds the tag alone, without options, in the buffers that are lent.
ghost use Rattle.std.specs.Prelude.{◌+◌, ◌≤◌, ◌≡◌, length};
ghost use Rattle.field.specs.Put.{Wrote};
ghost use Rattle.field.specs.Row.{field_bytes};
ghost use Rattle.tag_tree.specs.TagAnswer.{tag_outcome};
ghost use Rattle.tag.specs.TagCard.{without_end, tag_text};

use field::HEAD;
use field::tags::{PAGE, STATEMENT};
use field::writer::{put_bytes, put_head};
use print_card::{print_card, print_refusal};
use tag_pass::answer::read_tag;

// A text file ends with a line end, which is no part of the tag.
fn without_end(s: &[u8]) -> &[u8]
    ensures { result.now ≡ without_end s.now }
{
    s.strip_suffix(b"\n").unwrap_or(s)
}

// The page around a tag's field. Of a body over 65,535 bytes a head has the low half of the length: such a page is over 32,768 bytes, and
// refused as 2 before a head is read.
fn put_page(out: &mut [u8], tag: &[u8]) -> usize
    requires { 6 + length tag.now ≤ length out.old }
    ensures { Wrote out.old 0 (field_bytes 0x01 (field_bytes 0x12 tag.now)) out.new result }
{
    let n = tag.len();
    let a = put_head(out, 0, PAGE, HEAD + n);
    let b = put_head(out, a, STATEMENT, n);
    put_bytes(out, b, tag)
}

// Six buffers one by one: a struct of them would be filled in `main` and taken apart here, and nowhere else.
pub fn print_tag(
    text: &[u8],
    tag: &mut [u8],
    input: &mut [u8],
    scratch: &mut [u8],
    templates: &mut [u8],
    page: &mut [u8],
    printed: &mut [u8],
) -> usize
    requires { 6 + length tag.old ≤ length input.old }
    ensures { Wrote printed.old 0 (tag_text (length scratch.old) (length templates.old) (length page.old) (tag_outcome (without_end text.now) (length tag.old))) printed.new result }
{
    let a = read_tag(without_end(text), tag);
    // a number, since the export answers C: 0, or a refusal's
    match a.number {
        0 => {
            let end = put_page(input, &tag[..a.tag_bytes]);
            print_card(&input[..end], scratch, templates, page, printed)
        }
        number => print_refusal(printed, number),
    }
}
