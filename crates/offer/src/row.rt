// A row of a fit.

// Its entries, of which the first ones count, as many as there are columns, and its figure; all in grains.
// The entries are an array, since a row is a plain `Copy` value in a lent slice:
// a vector of its own length, as `ArrayVec`, is not `Copy`, and would repeat the fit's count of columns in each row.
#[derive(Clone, Copy)]
pub struct Row {
    pub entries: [i64; 8],
    pub figure: i64,
}
