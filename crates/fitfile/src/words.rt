// The words of a header, and the counts among them.
ghost use Rattle.std.specs.Prelude.{◌≡◌, ◌<◌, ◌≤◌, length, MatchOption};
ghost use Rattle.fitfile.specs.Bytes.{word};
ghost use Rattle.fitfile.specs.Header.{in_range, words_of};

// The counts that a header gives.
#[derive(Clone, Copy, PartialEq, Eq, Debug)]
pub struct Header {
    pub rows: usize,
    pub columns: usize,
    pub offers: usize,
}

// The eight words of a header, in their order: the counts, then the places and lengths.
#[derive(Clone, Copy)]
pub(crate) struct Words {
    pub counts: Header,
    pub rows_at: usize,
    pub figures_at: usize,
    pub offers_at: usize,
    pub offer_length: usize,
    pub file_length: usize,
}

impl Header {
    // Whether each count is within its limits.
    pub(crate) fn in_range(&self) -> bool
        ensures { result ≡ in_range self.now }
    {
        (1..=64).contains(&self.rows) && (1..=8).contains(&self.columns) && self.offers <= 16
    }
}

// The unsigned word that four bytes spell, low byte first.
// It is a function and no From, since neither type is of this crate.
fn unsigned(bytes: [u8; 4]) -> usize
    ensures { result ≡ word bytes 0 }
{
    u32::from_le_bytes(bytes) as usize
}

impl Words {
    // The eight words that begin the bytes, where there are so many; one pattern names them in their order.
    // Each is read by itself: what `.map(unsigned)` gives at each place would need a proof file, and this needs none.
    #[tactic(auto, using(crate::proofs::Chunks::word_chunk))]
    pub(crate) fn read(bytes: &[u8]) -> Option<Self>
        ensures { MatchOption result (length bytes.now < 32) (λ w. (32 ≤ length bytes.now) × (w ≡ words_of bytes.now)) }
    {
        let (chunks, _) = bytes.as_chunks::<4>();
        let [
            rows,
            columns,
            offers,
            rows_at,
            figures_at,
            offers_at,
            offer_length,
            file_length,
        ] = *chunks.first_chunk::<8>()?;
        Some(Words {
            counts: Header {
                rows: unsigned(rows),
                columns: unsigned(columns),
                offers: unsigned(offers),
            },
            rows_at: unsigned(rows_at),
            figures_at: unsigned(figures_at),
            offers_at: unsigned(offers_at),
            offer_length: unsigned(offer_length),
            file_length: unsigned(file_length),
        })
    }
}
