//! How much is let in.

/// How many items a problem may have.
pub const MOST_ITEMS: usize = 100_000;

/// How many uses all options may have. An option that is kept has one, so with the limit of items there are at most
/// 20,100,002 nodes: each place stays below 2^31, from which on TOP means a spacer.
pub const MOST_USES: usize = 10_000_000;

/// How many bytes a name may have: four numbers of eight bytes, as which a guess reads a long one.
pub const LONGEST_NAME: usize = 32;

/// How many bytes a colour may have: one number of eight bytes, so that a guess at a colour goes by all of it.
pub const LONGEST_COLOUR: usize = 8;
