// 02, A12: the sums that a house writes in braces. A text is read by the grammar of sums and comes to a number, by sign and size, or it
// stays: because it is no sum, or a number or step passes the bound, or zero and a negative are multiplied. For a page both come to the
// same. Which text of a page is asked about is left to `worked`.
#![tactic(auto)]

pub mod reader;
pub mod value;
