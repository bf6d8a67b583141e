use crate::Frame;
use ja_heap::Heap;

/// A state of a run: the heap, the function that runs, the functions below that wait for it, the
/// program's text first, and the number of steps made.
#[derive(Drop)]
pub struct Conf {
    pub heap: Heap,
    pub frame: Frame,
    pub below: Vec<Frame>,
    pub steps: u64,
}
