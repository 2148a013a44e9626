//! What the rings were opened with: the key of the table, which never changes.
use venue_model::Past;

/// What the rings were opened with.
#[derive(Drop)]
pub struct Setup<L> {
    /// How many rows the input ring has, a power of two from 2 to 4,096.
    pub rows: usize,
    /// How many rows the output ring has, a power of two from 2 to 4,096.
    pub output_rows: usize,
    /// How many gateways there are, 1 to 8.
    pub gateways: usize,
    /// What histories mean.
    pub logic: L,
    /// The history at the start; contracts alone read it.
    pub base: Past,
    /// How many outputs that history has.
    pub base_outputs: u64,
}
