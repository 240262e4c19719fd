use source::Kind;

// The bytes of a GSUB or GPOS table, with its kind as its maker says.
#[derive(Clone, Copy)]
pub struct Table<'a> {
    pub(crate) kind: Kind,
    pub(crate) bytes: &'a [u8],
}
