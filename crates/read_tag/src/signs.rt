// Which bytes are what, and where runs of them end.
ghost use Rattle.std.specs.Prelude.{◌≡◌, ◌≤◌, length};
ghost use Rattle.grammar.specs.Signs.{letter, name_byte, space, quote, quoted_byte, source_byte};
ghost use Rattle.read_tag.specs.Runs.{Ran, plain_text, plain_string};

use page::name::{is_part, is_start};
use text::runs::{Class, run_end};

// A start of a name, in the grammar's word, by which the turns of the pass are stated.
#[tactic(auto, unfolding(grammar::specs::Signs::letter))]
pub fn is_letter(c: u8) -> bool
    ensures { result ≡ letter c }
{
    is_start(c)
}

// Tab, LF, CR, space: one test of bits. A matches! of them is three tests: a row of `<b/>` takes 85.9 instructions a byte for 81.1, and dense tags 47.1
// for 45.5: 5.9 and 3.5 % more, where a set may take 3 %.
#[tactic(auto, unfolding(grammar::specs::Signs::space))]
pub fn is_space(c: u8) -> bool
    ensures { result ≡ space c }
{
    (c == b'\t') | (c == b'\n') | (c == b'\r') | (c == b' ')
}

#[tactic(auto, unfolding(grammar::specs::Signs::quote))]
pub fn is_quote(c: u8) -> bool
    ensures { result ≡ quote c }
{
    matches!(c, b'"' | b'\'')
}

// In source text, out of quotes. Here and in text most bytes are told by two tests, and the others by one of bits: by matches! alone components take
// 36.0 instructions a byte for 33.5, and a text of white space 14.3 for 9.3: 7 % more and over, where a set may take 3 %.
#[tactic(auto, unfolding(grammar::specs::Signs::source_byte, grammar::specs::Signs::quote))]
pub fn is_source(c: u8) -> bool
    ensures { result ≡ source_byte c }
{
    if b'a' <= c {
        return c <= b'z' || !((c == b'{') | (c == b'}'));
    }
    c < b'"'
        || !((c == b'<') | (c == b'`') | (c == b'\\') | (c == b'/') | (c == b'"') | (c == b'\''))
}

#[derive(Clone, Copy)]
pub struct Spaces;

impl Class for Spaces {
    ghost holds = { λ x c. space c };

    fn has(&self, c: u8) -> bool {
        is_space(c)
    }
}

// The bytes of an identifier behind its first.
#[derive(Clone, Copy)]
pub struct NameBytes;

impl Class for NameBytes {
    ghost holds = { λ x c. name_byte c };

    #[tactic(auto, unfolding(grammar::specs::Signs::letter, grammar::specs::Signs::digit, grammar::specs::Signs::name_byte))]
    fn has(&self, c: u8) -> bool {
        is_part(c)
    }
}

// Text, up to an entity.
#[derive(Clone, Copy)]
pub struct PlainText;

impl Class for PlainText {
    ghost holds = { λ x c. plain_text c };

    #[tactic(auto, unfolding(grammar::specs::Signs::text_byte, crate::specs::Runs::plain_text))]
    fn has(&self, c: u8) -> bool {
        if b'a' <= c {
            return c <= b'z' || !((c == b'{') | (c == b'}'));
        }
        c < b'&' || !((c == b'<') | (c == b'>') | (c == b'&'))
    }
}

// Characters of an attribute string in the quote, up to an entity.
#[derive(Clone, Copy)]
pub struct PlainString {
    pub quote: u8,
}

impl Class for PlainString {
    ghost holds = { λ x c. plain_string x.quote c };

    #[tactic(auto, unfolding(grammar::specs::Signs::string_byte, crate::specs::Runs::plain_string))]
    fn has(&self, c: u8) -> bool {
        !(c == self.quote || c == b'&')
    }
}

// Within the quote in source text.
#[derive(Clone, Copy)]
pub struct QuotedSource {
    pub quote: u8,
}

impl Class for QuotedSource {
    ghost holds = { λ x c. quoted_byte x.quote c };

    #[tactic(auto, unfolding(grammar::specs::Signs::quoted_byte))]
    fn has(&self, c: u8) -> bool {
        !(c == self.quote || matches!(c, b'\n' | b'\r' | b'\\'))
    }
}

// Behind the white space at i. A text and a place, here and in all scans above it: a name, an entity or a tag is told by its place in the text, and the
// contracts speak of `drop i text`; a slice of what is left would have to be turned into a place again.
pub fn skip_spaces(text: &[u8], i: usize) -> usize
    requires { i ≤ length text.now }
    ensures { Ran space text.now i result }
{
    run_end(&Spaces, text, i)
}
