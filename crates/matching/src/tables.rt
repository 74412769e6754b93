use crate::work_list::WorkList;

// The tables that a caller lends for a search, but for the one that the matching comes into: the block of each left member,
// a mark for each right member, and the left members at hand.
// Kept as it is: that they serve and no mark is set is asked by one word, `Ready`. As a ghost field beside what is lent, already
// that the marks are enough left `refine` open, which lends the block in its loop.
#[derive(Drop)]
pub struct Tables<'a, 'w> {
    pub block: &'a mut [usize],
    pub marks: &'a mut [u8],
    pub work: &'a mut WorkList<'w>,
}
