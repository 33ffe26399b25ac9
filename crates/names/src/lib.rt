// Names as 000 treats them: which elements are void, which attributes are boolean, and what an attribute's name becomes. Each test
// is by whole bytes, and takes any bytes. Whether bytes are a name at all is left to the crates above.
#![tactic(auto)]

mod attributes;
mod booleans;
mod compare;
mod elements;
mod escaped;
mod listed;
mod runs;
mod table;

pub use attributes::{
    get_attr_name, is_plain, is_xlink_href, namespaced_is, normalize_dom_attr_name,
    normalize_namespaced, normalizes_to_key, normalizes_to_ref,
};
pub use booleans::{is_boolean_attr, normalizes_to_boolean};
pub use compare::{letter, same_bytes, small_letter};
pub use elements::{Void, is_void_element, void_kind};
pub use escaped::{put_attr_name, put_namespaced};
pub use listed::{Spelling, spelling_of};
