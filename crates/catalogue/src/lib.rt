// A host's catalogue of pages in one lent buffer, and the houses' shares of it (document 02, A13 and A14), and nothing that runs: the bytes
// that a list of pages is built to, the list that bytes read as, what each arrival and leaving answers and leaves. The proofs say that the two
// are inverse, that a call keeps what it must and touches no more, and that what one house has within its guarantee no other can tell.
#![tactic(auto)]
