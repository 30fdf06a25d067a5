//! The state of an item.

/// What the newest Cover or Purify of an item made of it.
#[derive(Clone, Copy)]
pub(crate) enum ItemState {
    Open,
    Covered,
    Purified,
}
