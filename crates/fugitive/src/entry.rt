// An entry of the fugitive table: the factors that a line's grades choose.
ghost use Rattle.std.specs.Prelude.{◌<◌};
ghost use Rattle.little.specs.Read.{Reads, u16_range};
ghost use Rattle.fugitive.specs.Entry.{entry_size, chosen, factors_range, factors_of};

use super::grades::Grades;
use little::read::u16_at;

// Where the factors of a place begin in an entry.
const CRUSHING: usize = 10;

const TAPPING: usize = 16;

const SPILL: usize = 22;

// The factor of a place, whose three begin at `from`, by its grade; 0 where there is no such grade. A grade is whatever number a line has,
// since rule 15 speaks of those that are none.
#[tactic(auto, unfolding(crate::specs::Entry::chosen))]
fn chosen(entry: &[u8], from: usize, grade: usize) -> usize
    requires { from < entry_size }
    ensures { Reads result (chosen entry.now from grade) u16_range }
{
    match grade {
        1 => u16_at(entry, from),
        2 => u16_at(entry, from + 2),
        3 => u16_at(entry, from + 4),
        _ => 0,
    }
}

// The sum of the factors that the grades choose, in thousandths of kg/t; of bytes that are no entry, those past the end count as 0.
#[tactic(auto, unfolding(crate::specs::Entry::factors_of))]
pub fn factors_of(entry: &[u8], grades: Grades) -> usize
    ensures { Reads result (factors_of entry.now grades) factors_range }
{
    chosen(entry, CRUSHING, grades.crushing)
        + chosen(entry, TAPPING, grades.tapping)
        + chosen(entry, SPILL, grades.spill)
}
