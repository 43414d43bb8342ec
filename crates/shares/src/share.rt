// A meter reading, and k: the share of the production that a treatment ran for.
ghost use Rattle.std.specs.Prelude.{◌≡◌};
ghost use Rattle.shares.specs.Inner.{read_of};
ghost use Rattle.shares.specs.Share.{goes_with, ratio, hours_share, energy_share, share_of, share_by};

use amounts::reading::{PARTS_PER_UNIT, parts_of};
use answers::answer::LineFault;

// Limits, in whole hours, kW and kWh.
pub const MOST_HOURS: u32 = 8784;

pub const MOST_KILOWATTS: u32 = 10000;

pub const MOST_KILOWATT_HOURS: u32 = 10_000_000;

#[derive(Clone, Copy)]
pub struct EnergyReading {
    pub kwh: f64,
    pub kw: f64,
    pub hours: f64,
}

#[derive(Clone, Copy)]
pub enum Reading {
    None,
    Hours { run: f64, production: f64 },
    Energy(EnergyReading),
    Throughout,
}

// n over d.
#[derive(Clone, Copy, Debug, PartialEq, Eq)]
pub struct Fraction {
    pub n: u64,
    pub d: u64,
}

const ONE: Fraction = Fraction { n: 1, d: 1 };

// Kind 1 goes with k rule 1, kind 2 with k rule 2, kind 3 with either, kind 0 with none. A rule is a number, since `share_by` answers for
// every one.
#[tactic(auto, unfolding(crate::specs::Share::goes_with))]
fn goes_with(reading: Reading, rule: usize) -> bool
    ensures { result ≡ goes_with reading rule }
{
    match reading {
        Reading::None => false,
        Reading::Hours {
            run: _,
            production: _,
        } => rule == 1,
        Reading::Energy(_) => rule == 2,
        Reading::Throughout => (rule == 1) | (rule == 2),
    }
}

// n over d where there is a divisor; for an n above d the caller says what is answered.
#[tactic(auto, unfolding(crate::specs::Share::ratio))]
fn ratio(n: u64, d: u64, excess: Result<Fraction, LineFault>) -> Result<Fraction, LineFault>
    ensures { result ≡ ratio n d excess }
{
    if d == 0 {
        return Err(LineFault::ZeroDivisor);
    }
    if n <= d {
        Ok(Fraction { n, d })
    } else {
        excess
    }
}

// The parts of x, within the limit of `most` whole units.
#[tactic(auto, unfolding(crate::specs::Inner::as_read))]
fn taken(x: f64, most: u32) -> Result<u64, LineFault>
    ensures { result ≡ read_of most x }
{
    parts_of(x, most).map_err(|_| LineFault::BadReading)
}

#[tactic(auto, unfolding(crate::specs::Share::hours_share, crate::specs::Share::if_taken, crate::specs::Inner::as_read))]
fn hours_share(run: f64, production: f64) -> Result<Fraction, LineFault>
    ensures { result ≡ hours_share run production }
{
    let n = taken(run, MOST_HOURS)?;
    let d = taken(production, MOST_HOURS)?;
    // By the rules a fan that ran longer than the furnace ran for all of the production.
    ratio(n, d, Ok(ONE))
}

#[tactic(auto, unfolding(crate::specs::Share::energy_share, crate::specs::Share::if_taken, crate::specs::Inner::as_read))]
fn energy_share(e: EnergyReading) -> Result<Fraction, LineFault>
    ensures { result ≡ energy_share e }
{
    let kwh = taken(e.kwh, MOST_KILOWATT_HOURS)?;
    let kw = taken(e.kw, MOST_KILOWATTS)?;
    let hours = taken(e.hours, MOST_HOURS)?;
    // By the rules an excess of energy means a wrong rating plate.
    let over_rating = Err(LineFault::KAboveOne);
    ratio(kwh * PARTS_PER_UNIT, kw * hours, over_rating)
}

// Of the reading alone; no reading is of no kind that goes with a rule.
#[tactic(auto, unfolding(crate::specs::Share::share_of))]
fn share_of(reading: Reading) -> Result<Fraction, LineFault>
    ensures { result ≡ share_of reading }
{
    match reading {
        Reading::None => Err(LineFault::WrongKind),
        Reading::Hours { run, production } => hours_share(run, production),
        Reading::Energy(e) => energy_share(e),
        Reading::Throughout => Ok(ONE),
    }
}

// k for a row of the book with this k rule, 1 hours or 2 energy. The kind is looked at first, then the numbers in their order, then the
// divisor, then whether k is above 1: with hours it is then exactly 1, with energy it is refused. Under any other rule every reading is of
// the wrong kind.
#[tactic(auto, unfolding(crate::specs::Share::share_by))]
pub fn share_by(reading: Reading, rule: usize) -> Result<Fraction, LineFault>
    ensures { result ≡ share_by reading rule }
{
    if goes_with(reading, rule) {
        share_of(reading)
    } else {
        Err(LineFault::WrongKind)
    }
}
