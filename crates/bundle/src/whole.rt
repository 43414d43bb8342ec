// Whether a bundle is taken as a whole, before any sheet of it is looked at.
ghost use Rattle.std.specs.Prelude.{◌≡◌};
ghost use Rattle.bundle.specs.Whole.{roomy, bundle_outcome};

use super::form::bundle_ok;
use super::header::{cells_per_sheet, sheet_count};
use answers::bundle::BundleFault;

// The count is a u16 and the cells are a u32, so that the product is below 2 ^ 48.
#[tactic(auto, unfolding(crate::specs::Whole::roomy, search::specs::Test::every))]
fn has_room(b: &[u8], exact: usize, shown: usize, outcomes: usize) -> bool
    ensures { result ≡ roomy b.now exact shown outcomes }
{
    let sheets = sheet_count(b);
    let cells = sheets * cells_per_sheet(b);
    (cells <= exact) & (cells <= shown) & (sheets <= outcomes)
}

// For a bundle of any content and size, and results and outcomes of so many cells.
#[tactic(auto, unfolding(crate::specs::Whole::bundle_outcome))]
pub fn bundle_outcome(
    b: &[u8],
    exact: usize,
    shown: usize,
    outcomes: usize,
) -> Result<(), BundleFault>
    ensures { result ≡ bundle_outcome b.now exact shown outcomes }
{
    if !bundle_ok(b) {
        return Err(BundleFault::BundleMalformed);
    }
    if !has_room(b, exact, shown, outcomes) {
        return Err(BundleFault::ResultTooShort);
    }
    Ok(())
}
