// What a granted offer is answered.

// The largest row sum, and the radius of each column, 0 past the last one; all in grains.
// The radii are an array, which takes no heap memory and is a plain `Copy` value; an `ArrayVec` is not `Copy`.
#[derive(Clone, Copy, PartialEq, Eq, Debug)]
pub struct Verdict {
    pub alpha: u64,
    pub radii: [u64; 8],
}
