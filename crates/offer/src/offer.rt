// An offer, as it is lent.

// S, row by row, each row from its diagonal on; x, a number for each column; w, a number for each row; all in grains.
#[derive(Clone, Copy)]
pub struct Offer<'a> {
    pub s: &'a [i64],
    pub x: &'a [i64],
    pub w: &'a [i64],
}
