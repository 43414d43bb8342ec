// The technique search. It is handed the technique block alone.
ghost use Rattle.std.specs.Prelude.{◌<◌, ◌≤◌, ◌+◌, ◌*◌, length};
ghost use Rattle.search.specs.Cut.{Cut};
ghost use Rattle.search.specs.First.{Finds};
ghost use Rattle.little.specs.Read.{Reads};
ghost use Rattle.headers.specs.Book.{technique_size};
ghost use Rattle.desk.specs.Book.{technique_code, technique_efficiency};
ghost use Rattle.desk.specs.Inner.{Listed, code_below, counted};
ghost use Rattle.desk.specs.Technique.{technique_index};

use super::inside::u16_in;
use headers::book::TECHNIQUE_SIZE;
use little::read::u16_at;
use search::halving::passing;

// How many of the techniques of a list have a lower code: codes rise.
fn codes_below(t: &[u8], from: usize, count: usize, code: usize) -> usize
    requires { (from < counted) × (count < counted) × Listed t.now from count }
    ensures { Cut count (code_below t.now from code) result result }
{
    passing(count, |j| code_in(t, from + j) < code)
}

// The place, in a row's list of `count` techniques that begins at `from`, of the one with this code.
#[tactic(auto, unfolding(crate::specs::Technique::technique_index, crate::specs::Technique::technique_has))]
pub(crate) fn technique_index(t: &[u8], from: usize, count: usize, code: usize) -> Option<usize>
    requires { (from < counted) × (count < counted) × Listed t.now from count }
    ensures { Finds result (technique_index t.now from count code) counted }
{
    let j = codes_below(t, from, count, code);
    if j < count && code_in(t, from + j) == code {
        return Some(j);
    }
    None
}

pub(crate) fn efficiency_at(t: &[u8], k: usize) -> usize
    requires { k < counted + counted }
    ensures { Reads result (technique_efficiency t.now k) counted }
{
    u16_at(t, TECHNIQUE_SIZE * k + 2)
}

pub(crate) fn code_in(t: &[u8], k: usize) -> usize
    requires { technique_size * k + technique_size ≤ length t.now }
    ensures { Reads result (technique_code t.now k) counted }
{
    u16_in(t, TECHNIQUE_SIZE * k, 0)
}

pub(crate) fn efficiency_in(t: &[u8], k: usize) -> usize
    requires { technique_size * k + technique_size ≤ length t.now }
    ensures { Reads result (technique_efficiency t.now k) counted }
{
    u16_in(t, TECHNIQUE_SIZE * k, 2)
}
