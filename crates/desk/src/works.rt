// A whole works: the sheets of a bundle, each as if it were alone.
ghost use Rattle.std.specs.Prelude.{◌≡◌, true, length};
ghost use Rattle.bundle.specs.Whole.{roomy};
ghost use Rattle.desk.specs.Lent.{contents};
ghost use Rattle.desk.specs.Works.{results, SheetBySheet, BundleDeclared};
ghost use Rattle.desk.specs.Inner.{OfSources};
ghost use Rattle.desk.specs.InnerWorks.{SheetRuns, SheetDone};

use super::declare::declare_told;
use super::lent::Sources;
use super::right::RightSources;
use super::table::right_sources;
use answers::answer::{Refusal, outcome_code};
use answers::bundle::BundleFault;
use bundle::entry::sheet_of;
use bundle::header::{cells_per_sheet, sheet_count};
use bundle::whole::bundle_outcome;
use little::cells::clear;

// Sheet i is lent its own run of each result, and nothing else of them.
fn declare_sheet(
    told: Result<RightSources<'_>, Refusal>,
    bundle: &[u8],
    i: usize,
    exact: &mut [u64],
    shown: &mut [u64],
) -> Result<(), Refusal>
    requires { SheetRuns bundle.now i exact.old shown.old }
    ensures { OfSources told.entry (λ from. SheetDone from bundle.now i
        exact.old shown.old result exact.new shown.new) }
{
    let cells = cells_per_sheet(bundle);
    let from = i * cells;
    let to = from + cells;
    declare_told(
        told,
        sheet_of(bundle, i),
        &mut exact[from..to],
        &mut shown[from..to],
    )
}

// The sources are looked at once for all sheets.
fn each_sheet(
    sources: Sources<'_>,
    bundle: &[u8],
    exact: &mut [u64],
    shown: &mut [u64],
    outcomes: &mut [u64],
)
    requires { roomy bundle.now (length exact.old) (length shown.old) (length outcomes.old) ≡ true }
    ensures { SheetBySheet (contents sources.entry) bundle.now
        (results exact.old shown.old outcomes.old)
        (results exact.new shown.new outcomes.new) }
{
    let told = right_sources(sources);
    for i in 0..sheet_count(bundle) {
        let outcome = declare_sheet(told, bundle, i, exact, shown);
        outcomes[i] = outcome_code(outcome);
    }
}

// Every sheet's figures or refusal, for books, a fugitive table and a bundle of any content, results and outcomes of any size. A refusal
// of the whole comes before anything else and zeroes all that is lent; a sheet's own refusal zeroes its runs only.
pub fn declare_bundle(
    sources: Sources<'_>,
    bundle: &[u8],
    exact: &mut [u64],
    shown: &mut [u64],
    outcomes: &mut [u64],
) -> Result<(), BundleFault>
    ensures { BundleDeclared (contents sources.entry) bundle.now
        (results exact.old shown.old outcomes.old) result
        (results exact.new shown.new outcomes.new) }
{
    if let Err(fault) = bundle_outcome(bundle, exact.len(), shown.len(), outcomes.len()) {
        clear(exact);
        clear(shown);
        clear(outcomes);
        return Err(fault);
    }
    each_sheet(sources, bundle, exact, shown, outcomes);
    Ok(())
}
