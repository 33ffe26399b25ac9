// Tag text and its grammar (document 02, A3), and nothing that runs: the syntax that a text reads as, the grammar as a relation between the
// two, and a reader that goes once over the bytes. The proofs say that the reader answers what the grammar says, and that a text has one
// reading. The page's tree and the field's bytes are left to `tag_tree`.
#![tactic(auto)]
