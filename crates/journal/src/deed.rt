// Deeds as they stand in a file.
pub mod read;

// What a deed asks for.
#[derive(Clone, Copy, PartialEq, Eq, Debug)]
pub enum Kind {
    Insert,
    Delete,
    Keep,
    Drop,
    Ask,
}

// A byte that says no deed.
#[derive(Clone, Copy, PartialEq, Eq, Debug)]
pub struct NoDeed(pub u8);

// A deed that was read: what it asks for, the numbers that come with it, the first so many of the five, and the bytes behind it.
// A `Vec` would let `next_deed` fail, which it can't; an array that knows its count would be no plainer, a crate more for this field.
#[derive(Clone, Copy, Debug, PartialEq, Eq)]
pub struct Step<'a> {
    pub kind: Kind,
    pub count: usize,
    pub numbers: [u64; 5],
    pub rest: &'a [u8],
}
