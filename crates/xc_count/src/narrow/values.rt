//! Values of items, and lists of them, by the items' numbers. What no number names is passed over.
ghost use Rattle.std.specs.Prelude.{◌≡◌, [], map, unwrap_or};
ghost use Rattle.xc_input.specs.Problem.{numbered_get};

/// What is the value of an item.
pub fn value_at(values: &[u32], item: u32) -> u32 {
    match values.get((item as usize).wrapping_sub(1)) {
        Some(value) => *value,
        None => 0,
    }
}

/// Sets the value of an item.
pub fn set_value(values: &mut Vec<u32>, item: u32, value: u32) {
    if let Some(found) = values.get_mut((item as usize).wrapping_sub(1)) {
        *found = value;
    }
}

/// Adds one to the value of an item.
pub fn add_one(values: &mut Vec<u32>, item: u32) {
    if let Some(found) = values.get_mut((item as usize).wrapping_sub(1)) {
        *found = (*found).saturating_add(1);
    }
}

/// Takes one from the value of an item.
pub fn take_one(values: &mut Vec<u32>, item: u32) {
    if let Some(found) = values.get_mut((item as usize).wrapping_sub(1)) {
        *found = (*found).saturating_sub(1);
    }
}

/// The list of an item.
pub fn list_of(lists: &[Vec<u32>], item: u32) -> &[u32]
    ensures { result.now ≡ unwrap_or (numbered_get (map (λ l. l.items) lists.now) item) [] }
{
    match lists.get((item as usize).wrapping_sub(1)) {
        Some(list) => list.as_slice(),
        None => &[],
    }
}
