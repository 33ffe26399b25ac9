// The card of a page, without options, in the buffers that are lent.
#![tactic(auto)]

ghost use Rattle.std.specs.Prelude.{[], ◌∷◌, ◌++◌, length};
ghost use Rattle.field.specs.Put.{Wrote};
ghost use Rattle.text.specs.Decimal.{decimal};
ghost use Rattle.spec.specs.Answer.{outcome};
ghost use Rattle.printing.specs.Card.{card_text};

use field::writer::put_byte;
use jsx_precompile::jsx_precompile_transform;
use page::MIN_SCRATCH;
use printing::lines::print_page;
use text::decimal::put_decimal;

// What the programs lend for scratch and for each out.
pub const OUT_ROOM: usize = MIN_SCRATCH;

// Room for the card of any two outs: a field of three bytes prints less than 48, a byte at most four, and the import 109 more.
pub const TEXT_ROOM: usize = 16 * (OUT_ROOM + OUT_ROOM) + 128;

// A refusal is printed as its number.
pub fn print_refusal(text: &mut [u8], number: u32) -> usize
    ensures { Wrote text.old 0 (decimal number ++ (10 ∷ [])) text.new result }
{
    let end = put_decimal(text, 0, u64::from(number));
    put_byte(text, end, b'\n')
}

pub fn print_card(
    input: &[u8],
    scratch: &mut [u8],
    templates: &mut [u8],
    page: &mut [u8],
    text: &mut [u8],
) -> usize
    ensures { Wrote text.old 0 (card_text (outcome input.now [] (length scratch.old) (length templates.old) (length page.old))) text.new result }
{
    let a = jsx_precompile_transform(input, b"", scratch, templates, page);
    // a number, since the export answers C: 0, or a refusal's
    match a.number {
        0 => print_page(
            text,
            0,
            &templates[..a.templates_bytes],
            &page[..a.page_bytes],
        ),
        number => print_refusal(text, number),
    }
}
