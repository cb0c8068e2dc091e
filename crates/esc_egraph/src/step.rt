/// What there was before a node was made, or before classes were merged, in 32 bits: each node and
/// each merge has one.
#[derive(Clone, Copy)]
pub(crate) struct Step {
    /// Whether each node had a match in the signature table.
    pub(crate) whole: bool,
    pub(crate) nodes: u32,
    pub(crate) merges: u32,
    pub(crate) table: u32,
}
