// The tables of records that the queue does not read, as one value: whoever is handed it lends the same slices on.
// Each function that lends it on says `Same` in its promise: the check does not know by itself that the slices are still the caller's.
// Keys, stamps and queue go beside it: the queue takes all three at once, and a call takes several slices of one lent value only under a name for each.
// The queue's index goes with them; the free places and the events are no tables of the caller's.

// Per file number its place; per place the file kept there, its size, its cost and its frequency.
#[derive(Drop)]
pub struct Records<'a> {
    pub place: &'a mut [u16],
    pub file: &'a mut [u16],
    pub size: &'a mut [u32],
    pub cost: &'a mut [u16],
    pub freq: &'a mut [u32],
}
