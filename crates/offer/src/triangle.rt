// An upper triangle, as it is lent.
ghost use Rattle.std.specs.Prelude.{◌≡◌, ◌≢◌, ◌≤◌, length, MatchOption};
ghost use Rattle.offer.specs.Triangles.{triangle_length, triangle_at, whole_diagonal};

// Its numbers, row by row, each row from its diagonal on.
#[derive(Clone, Copy)]
pub(crate) struct Triangle<'a> {
    pub(crate) columns: usize,
    pub(crate) numbers: &'a [i64],
    ghost few: { columns ≤ 8 },
    ghost whole: { length numbers.now ≡ triangle_length columns },
}

impl<'a> Triangle<'a> {
    // The triangle of these numbers, if they are as many as it has.
    pub(crate) fn new(columns: usize, numbers: &'a [i64]) -> Option<Triangle<'a>>
        requires { columns ≤ 8 }
        ensures { MatchOption result (length numbers.now ≢ triangle_length columns)
            (λ t. (t.columns ≡ columns) × (t.numbers.now ≡ numbers.now)) }
    {
        // An `if`, since the closure of a `then` does not know that the test held, on which the ghost fields rest.
        if numbers.len() == columns * (columns + 1) / 2 {
            Some(Triangle { columns, numbers })
        } else {
            None
        }
    }

    // The number in row k and column j, and 0 below the diagonal and outside.
    pub(crate) fn at(&self, k: usize, j: usize) -> i64
        ensures { result ≡ triangle_at self.now.columns self.now.numbers.now k j }
    {
        if k <= j && j < self.columns {
            // The k rows above have columns, columns - 1, .. numbers.
            self.numbers[k * (2 * self.columns + 1 - k) / 2 + (j - k)]
        } else {
            0
        }
    }

    // Whether no number on the diagonal is 0.
    pub(crate) fn has_whole_diagonal(&self) -> bool
        ensures { result ≡ whole_diagonal self.now.columns self.now.numbers.now }
    {
        (0..self.columns).all(|k| self.at(k, k) != 0)
    }
}
