// Settlings as they are handed out.

// The branch picked for each opening, by its number, and 0 for any other number.
pub type Picks = [u8; 64];

// A settling, and the times of the nodes that it takes in all.
#[derive(Clone, Copy, Debug, PartialEq, Eq, Drop)]
pub struct Settlement {
    pub picks: Picks,
    pub total: u64,
}
