// Tag text read as a field 30 or 31 of a page (document 02, A3): the page's tree of a reading, and the whole answer at every text and room.
// The grammar and its reader are `grammar`'s. The proofs say that exactly what the grammar reads within the limits is accepted, and that
// what is accepted stands in a page.
#![tactic(auto)]
