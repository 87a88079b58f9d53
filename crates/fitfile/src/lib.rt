// Reads fit files: a header, the rows of a fit, its figures, and the offers made for it.
#![tactic(auto)]

ghost use Rattle.std.specs.Prelude.{◌≡◌, IfOk};
ghost use Rattle.fitfile.specs.Header.{header_of};
ghost use Rattle.fitfile.specs.Whole.{Whole};
ghost use Rattle.fitfile.specs.Writing.{FitText, Proper, file_of, ReadBack};
ghost use Rattle.fitfile.specs.Sections.{shown, shown_at, rows_of, figures_of, offer_of};

mod layout;
mod refusal;
mod section;
mod words;

use layout::{Layout, NUMBER, ROWS_AT};
pub use refusal::{FileRefusal, OfferRefusal};
pub use section::{Kind, Part, Section};
pub use words::Header;

// The counts that a file's header gives.
#[tactic(auto, using(crate::proofs::WrittenFiles::read_back))]
pub fn header(bytes: &[u8]) -> Result<Header, FileRefusal>
    ensures value { result ≡ header_of bytes.now }
    ensures whole { IfOk result (λ h. Whole h bytes.now) }
    ensures read_back { (f : FitText) → Proper f → bytes.now ≡ file_of f → ReadBack f bytes.now }
{
    Ok(Layout::read(bytes)?.counts)
}

// The rows of the fit.
pub fn rows(bytes: &[u8]) -> Result<Section<'_>, FileRefusal>
    ensures { shown result ≡ rows_of bytes.now }
{
    let Header { rows, columns, .. } = Layout::read(bytes)?.counts;
    Ok(Section::Rows(Part::cut(bytes, ROWS_AT, NUMBER * (rows * columns))))
}

// The figures of the fit, one for each row.
pub fn figures(bytes: &[u8]) -> Result<Section<'_>, FileRefusal>
    ensures { shown result ≡ figures_of bytes.now }
{
    let layout = Layout::read(bytes)?;
    Ok(Section::Figures(Part::cut(bytes, layout.figures_at(), NUMBER * layout.counts.rows)))
}

// The offer at an index, or none where the file has no more.
#[tactic(auto, using(crate::proofs::Accepted::offer_within))]
pub fn offer(bytes: &[u8], index: usize) -> Result<Option<Section<'_>>, FileRefusal>
    ensures { shown_at result ≡ offer_of bytes.now index }
{
    let layout = Layout::read(bytes)?;
    if index >= layout.counts.offers {
        return Ok(None);
    }
    let length = layout.offer_length();
    let at = layout.offers_at() + index * length;
    Ok(Some(Section::Offer(Part::cut(bytes, at, length))))
}
