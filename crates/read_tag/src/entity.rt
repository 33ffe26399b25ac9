// The five entities, between `&` and `;`.
ghost use Rattle.std.specs.Prelude.{◌≡◌};
ghost use Rattle.grammar.specs.Known.{entity_of};

// The byte that it stands for, if it is one of them.
#[tactic(auto, using(names::proofs::CompareLaws::same_other, crate::proofs::WordLaws::head_other), unfolding(grammar::specs::Known::entity_of, grammar::specs::Signs::choose, field::specs::Bytes::same))]
pub fn entity_code(e: &[u8]) -> Option<u8>
    ensures { result ≡ entity_of e.now }
{
    match e {
        b"amp" => Some(b'&'),
        b"lt" => Some(b'<'),
        b"gt" => Some(b'>'),
        b"quot" => Some(b'"'),
        b"#39" => Some(b'\''),
        _ => None,
    }
}
