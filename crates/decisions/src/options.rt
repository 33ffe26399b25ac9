// The options that the walks ask: 000's skip_serialize and dynamic_props.

// The names in 02, of elements that are not serialized, and those in 03, of properties that are always dynamic: each a row of fields. It is
// lent to the walks as one.
#[derive(Clone, Copy)]
pub struct Options<'a> {
    pub skip: &'a [u8],
    pub props: &'a [u8],
}
