// The shown unit, by its code and by a sheet.
ghost use Rattle.std.specs.Prelude.{◌≡◌};
ghost use Rattle.headers.specs.Unit.{is_unit, unit_of, unit_of_sheet};

use little::read::u32_at;

// One unit is 10 micrograms.
pub const GRAM: u64 = 100_000;

pub const KILOGRAM: u64 = 100_000_000;

pub const TONNE: u64 = 100_000_000_000;

// Whether a number is the code of a shown unit: 1 gram, 2 kilogram, 3 tonne. Here and below a code is any number, and so no enum.
pub fn is_unit(code: u64) -> bool
    ensures { result ≡ is_unit code }
{
    (1 <= code) & (code <= 3)
}

// W for a code, in units of 10 micrograms. For a number that is none, a tonne.
#[tactic(auto, unfolding(crate::specs::Unit::unit_of))]
pub fn unit_from(code: u64) -> u64
    ensures { result ≡ unit_of code }
{
    match code {
        1 => GRAM,
        2 => KILOGRAM,
        _ => TONNE,
    }
}

// W of a sheet.
pub fn unit_of(s: &[u8]) -> u64
    ensures { result ≡ unit_of_sheet s.now }
{
    unit_from(u32_at(s, 12) as u64)
}
