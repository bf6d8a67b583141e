use ja_base::Place;

/// Where a character stands in a text: how many bytes are before it, and its place.
#[derive(Clone, Copy, Debug, PartialEq, Eq)]
pub struct Spot {
    pub offset: usize,
    pub place: Place,
}
