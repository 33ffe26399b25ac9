// What must be believed of the transform, and nothing that runs: document 000 function by function as definitions on the page's tree,
// both outputs as rows of fields and as bytes, the whole answer at every input, and the words of the client's third demand. The proofs
// are the table of marks and the third demand. The crates above hold the code that is proved equal to these definitions.
#![tactic(auto)]

// What a pass finds beside its value: a tag was left in the result, a run that is merged a second time is over 65,535 bytes, an element
// that is serialized has two attributes of one name (document 02, A4), or is a void element only in small letters (A10).
#[derive(Clone, Copy)]
pub struct Flags {
    pub left: bool,
    pub long: bool,
    pub repeated: bool,
    pub mixed: bool,
}
