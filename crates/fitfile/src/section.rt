// The sections of a fit file, and the numbers in them.
ghost use Rattle.std.specs.Prelude.{◌≡◌, ◌+◌, ◌≤◌, length};
ghost use Rattle.fitfile.specs.Sections.{cut, plain, numbers, number_at, kind_of};

use crate::layout::NUMBER;
use crate::refusal::OfferRefusal;

// A part of a file: where it begins, and its bytes, which are the file's own.
#[derive(Clone, Copy)]
pub struct Part<'a> {
    pub at: usize,
    pub bytes: &'a [u8],
}

// A section of a fit file. Its part is lent by the caller, so that reading needs no memory.
// All three hold a part, since users ask for a section by which one it is, with its place and the file's own bytes.
#[derive(Clone, Copy)]
pub enum Section<'a> {
    Rows(Part<'a>),
    Figures(Part<'a>),
    Offer(Part<'a>),
}

// The arithmetic that an offer asks for.
#[derive(Clone, Copy, PartialEq, Eq, Debug)]
pub enum Kind {
    Ends,
    Centre,
}

impl<'a> Part<'a> {
    // So many bytes of a file, from a place on. Callers know that there are so many; an Option would add a case that never comes.
    pub(crate) fn cut(bytes: &'a [u8], at: usize, count: usize) -> Self
        requires { at + count ≤ length bytes.now }
        ensures place { result.at ≡ at }
        ensures bytes { result.bytes.now ≡ cut at count bytes.now }
    {
        Part {
            at,
            bytes: &bytes[at..at + count],
        }
    }
}

impl<'a> Section<'a> {
    // The bytes of the section's numbers: an offer's follow its two words.
    fn numbers(&self) -> &'a [u8]
        ensures { result.now ≡ numbers (plain self.now) }
    {
        match self {
            Section::Rows(part) | Section::Figures(part) => part.bytes,
            Section::Offer(part) => part.bytes.get(8..).unwrap_or_default(),
        }
    }

    // The number at an index, or none past the last one.
    #[tactic(auto, using(crate::proofs::Chunks::number_chunk))]
    pub fn number(&self, index: usize) -> Option<i64>
        ensures { result ≡ number_at (plain self.now) index }
    {
        let (numbers, _) = self.numbers().as_chunks::<NUMBER>();
        numbers.get(index).copied().map(i64::from_le_bytes)
    }
}

// The arithmetic that an offer's bytes ask for, by their first two words.
impl TryFrom<&[u8]> for Kind {
    type Error = OfferRefusal;

    ghost try_from_gives = { λ offer outcome. outcome ≡ kind_of offer.now };

    fn try_from(offer: &[u8]) -> Result<Kind, OfferRefusal> {
        // One pattern of bytes for each kind, as the format lists them.
        match offer {
            [1, 0, 0, 0, 0, 0, 0, 0, ..] => Ok(Kind::Ends),
            [2, 0, 0, 0, 0, 0, 0, 0, ..] => Ok(Kind::Centre),
            _ => Err(OfferRefusal::UnknownKind),
        }
    }
}
