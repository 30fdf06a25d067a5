//! What a variable means.

/// What a variable means of a set of options. Items and options have numbers from 1.
#[derive(Clone, Copy, Debug, PartialEq, Eq)]
pub enum Meaning {
    /// The option is chosen.
    Chosen(u32),
    /// Of the options that hold an item, up to the option of this number, at least so many are chosen: the item, the
    /// option, and how many.
    AtLeast(u32, u32, u32),
    /// An option is chosen that holds an item at a place up to this one: the item and the place. An option that gives
    /// the item no colour is at the place of its own number. One that gives it a colour is at the number of options
    /// and the colour's number.
    UpTo(u32, u64),
}
