// The readings of a line as they are written.
ghost use Rattle.std.specs.Prelude.{◌≡◌, cond, [], ◌∷◌, eqb};
ghost use Rattle.shares.specs.Share.{hours_of, kw_of, kwh_of};
ghost use Rattle.text.specs.Written.{kind_number, readings_of, all_taken};
ghost use Rattle.text.specs.Inner.{readings_made};

use amounts::reading::parts_of;
use shares::share::{EnergyReading, MOST_HOURS, MOST_KILOWATT_HOURS, MOST_KILOWATTS, Reading};

// How many of a, b, c are used, and their thousandths, 0 for those that are not.
#[derive(Clone, Copy)]
pub(crate) struct Readings {
    pub(crate) used: usize,
    pub(crate) a: u64,
    pub(crate) b: u64,
    pub(crate) c: u64,
}

const NO_READINGS: Readings = Readings {
    used: 0,
    a: 0,
    b: 0,
    c: 0,
};

// The kind as a column of a text has it.
pub(crate) fn kind_number(reading: Reading) -> u64
    ensures { result ≡ kind_number reading }
{
    match reading {
        Reading::None => 0,
        Reading::Hours {
            run: _,
            production: _,
        } => 1,
        Reading::Energy(_) => 2,
        Reading::Throughout => 3,
    }
}

// The readings that the kind uses; none where one of them is bad or over its limit.
fn of_hours(run: f64, production: f64) -> Option<Readings>
    ensures { result ≡ readings_made (all_taken (hours_of run ∷ hours_of production ∷ [])) }
{
    let a = parts_of(run, MOST_HOURS).ok()?;
    let b = parts_of(production, MOST_HOURS).ok()?;
    Some(Readings {
        used: 2,
        a,
        b,
        c: 0,
    })
}

fn of_energy(e: EnergyReading) -> Option<Readings>
    ensures { result ≡ readings_made (all_taken (kwh_of e.kwh ∷ kw_of e.kw ∷ hours_of e.hours ∷ [])) }
{
    let a = parts_of(e.kwh, MOST_KILOWATT_HOURS).ok()?;
    let b = parts_of(e.kw, MOST_KILOWATTS).ok()?;
    let c = parts_of(e.hours, MOST_HOURS).ok()?;
    Some(Readings { used: 3, a, b, c })
}

fn of_kind(reading: Reading) -> Option<Readings>
    ensures { result ≡ readings_made (all_taken (readings_of reading)) }
{
    match reading {
        Reading::None => Some(NO_READINGS),
        Reading::Hours { run, production } => of_hours(run, production),
        Reading::Energy(e) => of_energy(e),
        Reading::Throughout => Some(NO_READINGS),
    }
}

// Technique 0 uses none.
pub(crate) fn used_by(technique: usize, reading: Reading) -> Option<Readings>
    ensures { result ≡ readings_made (all_taken (cond (eqb technique 0) [] (readings_of reading))) }
{
    if technique == 0 {
        Some(NO_READINGS)
    } else {
        of_kind(reading)
    }
}
