// The layout that a header's counts ask for.
ghost use Rattle.std.specs.Prelude.{◌≡◌, true, false, Ok, Err, length, MatchResult, IfOk};
ghost use Rattle.fitfile.specs.declared.refusal.FileRefusal.TheVariants.{CountOutOfRange};
ghost use Rattle.fitfile.specs.Header.{in_range, agrees, header_of, figures_at, offers_at, offer_length, file_length};

use crate::refusal::FileRefusal;
use crate::words::{Header, Words};

// The bytes of a number.
pub(crate) const NUMBER: usize = 8;

// Where the rows begin: after the header.
pub(crate) const ROWS_AT: usize = 32;

// Counts within their limits, and so the places and lengths that they ask for.
// The bytes are no part of it: they would need a second invariant, on their length, and the answers borrow from the bytes alone.
#[derive(Clone, Copy)]
pub(crate) struct Layout {
    pub counts: Header,
    ghost within: { in_range counts ≡ true },
}

// The layout of counts that are within their limits.
impl TryFrom<Header> for Layout {
    type Error = FileRefusal;

    ghost try_from_gives = { λ counts outcome. MatchResult outcome
        (λ layout. layout.counts ≡ counts)
        (λ refusal. (in_range counts ≡ false) × (refusal ≡ CountOutOfRange)) };

    fn try_from(counts: Header) -> Result<Layout, FileRefusal> {
        if !counts.in_range() {
            return Err(FileRefusal::CountOutOfRange);
        }
        Ok(Layout { counts })
    }
}

impl Layout {
    // The layout of a file, or the first test that the file fails.
    pub(crate) fn read(bytes: &[u8]) -> Result<Self, FileRefusal>
        ensures value { MatchResult result
            (λ layout. Ok layout.counts ≡ header_of bytes.now)
            (λ refusal. Err refusal ≡ header_of bytes.now) }
        ensures long { IfOk result (λ layout. length bytes.now ≡ file_length layout.counts) }
    {
        let words = Words::read(bytes).ok_or(FileRefusal::WrongLength)?;
        if words.file_length != bytes.len() {
            return Err(FileRefusal::WrongLength);
        }
        let layout = Layout::try_from(words.counts)?;
        if !layout.agrees(&words) {
            return Err(FileRefusal::WrongLayout);
        }
        Ok(layout)
    }

    // Where the figures begin.
    pub(crate) fn figures_at(&self) -> usize
        ensures { result ≡ figures_at self.now.counts }
    {
        ROWS_AT + NUMBER * (self.counts.rows * self.counts.columns)
    }

    // Where the offers begin.
    pub(crate) fn offers_at(&self) -> usize
        ensures { result ≡ offers_at self.now.counts }
    {
        self.figures_at() + NUMBER * self.counts.rows
    }

    // The bytes of one offer.
    pub(crate) fn offer_length(&self) -> usize
        ensures { result ≡ offer_length self.now.counts }
    {
        let Header { rows, columns, .. } = self.counts;
        8 + NUMBER * (columns * (columns + 1) / 2 + columns + rows)
    }

    // The bytes of the whole file.
    fn file_length(&self) -> usize
        ensures { result ≡ file_length self.now.counts }
    {
        self.offers_at() + self.counts.offers * self.offer_length()
    }

    // Whether the words give the places and lengths that the counts ask for.
    // A derived == would need a second Words, which is as long.
    fn agrees(&self, words: &Words) -> bool
        ensures { result ≡ agrees self.now.counts words.now }
    {
        words.rows_at == ROWS_AT
            && words.figures_at == self.figures_at()
            && words.offers_at == self.offers_at()
            && words.offer_length == self.offer_length()
            && words.file_length == self.file_length()
    }
}
