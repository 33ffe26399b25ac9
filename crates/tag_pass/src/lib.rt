// The reader of tag text (document 02, A3): one loop with a stack of its own reads the text and writes its field, a production of the grammar a
// turn. It promises of every text and every lent buffer the number, the count and every byte that `tag_outcome` says. What a name, a text or an
// expression is, crate read_tag says. Its functions are merged into the loop, where LLVM would leave some out (`inline(always)`): with a state that is
// handed on by value components take 36.3 instructions a byte for 33.5, and a row of `{}` 70.4 for 22.4: 8 % more and over, where a set may take 3 %.
// The text stands beside the state, and not in it: so each contract need not say that it stays.
#![tactic(auto)]

pub mod answer;
pub mod attributes;
pub mod braces;
pub mod children;
pub mod frames;
pub mod pass;
pub mod sign;
pub mod state;
pub mod tags;
