//! Whether `==` tells values apart. A test that compares by it says nothing of values that it finds
//! equal always.

/// Finds values that `==` or `!=` compares wrongly. The values of the list must all be different. So each
/// should be equal to itself, and to no other.
///
/// Returns the first two positions at which `==` or `!=` says otherwise, or `None` if there are none. The
/// two positions are the same if a value is not equal to itself.
pub fn first_mistaken<T: PartialEq>(values: &[T]) -> Option<(usize, usize)> {
    for (at, one) in values.iter().enumerate() {
        for (place, other) in values.iter().enumerate() {
            let is_same = at == place;
            if (one == other) != is_same || (one != other) == is_same {
                return Some((at, place));
            }
        }
    }
    None
}
