// How far a lawful list of techniques goes from every fourth place of the block. With it a row's list is checked in a few steps, so that a
// book is checked in one pass over its bytes, even where every row names every technique.
ghost use Rattle.std.specs.Prelude.{◌≡◌, ◌<◌, ◌≤◌, ◌*◌, length};
ghost use Rattle.headers.specs.Book.{most_techniques, technique_size};
ghost use Rattle.desk.specs.Inner.{counted};
ghost use Rattle.desk.specs.Book.{techniques_ok};
ghost use Rattle.desk.specs.InnerRun.{lawful_by, runs_apart, run_from, Runs, Block};

use super::line::WHOLE_SHARE;
use super::technique::{code_in, efficiency_in};

// A run is kept for each so many techniques: the more, the less stack is wanted, and the more steps a row takes.
pub(crate) const RUNS_APART: usize = 4;

// A technique block, and the runs that are kept for its techniques.
#[derive(Clone, Copy)]
pub(crate) struct Techniques<'a> {
    pub block: &'a [u8],
    pub size: usize,
    pub runs: &'a [u16],
    ghost kept: { Block block.now size runs.now },
}

// A technique by itself.
fn is_lawful(code: usize, efficiency: usize) -> bool
    ensures { result ≡ lawful_by code efficiency }
{
    (code != 0) & (efficiency <= WHOLE_SHARE)
}

// The run from a technique on, where the next one has the code `next` and the run from that on has `run` techniques.
fn run_before(code: usize, efficiency: usize, next: usize, run: usize) -> usize
    requires { run < counted }
    ensures { result ≡ run_from code efficiency next run }
{
    if is_lawful(code, efficiency) {
        if code < next { run + 1 } else { 1 }
    } else {
        0
    }
}

// From the last technique to the first, so that each is read once: its code is the next one's for the technique before it.
pub(crate) fn fill_runs(t: &[u8], size: usize, runs: &mut [u16])
    requires { (size ≤ most_techniques) × (length t.now ≡ technique_size * size) × (size ≤ runs_apart * length runs.old) }
    ensures { Runs t.now size runs.new }
{
    let mut next = 0;
    let mut run = 0;
    for k in (0..size).rev() {
        let code = code_in(t, k);
        run = run_before(code, efficiency_in(t, k), next, run);
        if k % RUNS_APART == 0 {
            runs[k / RUNS_APART] = run as u16;
        }
        next = code;
    }
}

// A list that is empty is right wherever it begins. Any other is looked at technique by technique, up to its end or to the first one whose
// run is kept.
pub(crate) fn list_ok(techniques: Techniques<'_>, first: usize, count: usize) -> bool
    requires { (first < counted) × (count < counted) }
    ensures { result ≡ techniques_ok techniques.entry.block.now techniques.entry.size first count }
{
    if count == 0 {
        return true;
    }
    let end = first + count;
    if techniques.size < end {
        return false;
    }
    let block = techniques.block;
    let runs = techniques.runs;
    let mut before = 0;
    for k in first..end {
        let code = code_in(block, k);
        if code <= before {
            return false;
        }
        if k % RUNS_APART == 0 {
            return end - k <= runs[k / RUNS_APART] as usize;
        }
        if !is_lawful(code, efficiency_in(block, k)) {
            return false;
        }
        before = code;
    }
    true
}
