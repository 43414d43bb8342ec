// Tables of two lines, settled step by step: the picture of docs/SETTLING.md with ten as 10^5, and tables that are refused.
use answers::step::{Stepped, TableOff, step_code};
use steps::count::settling_steps;
use steps::step::settling_step;

// The cells of two lines and the row of sums.
const CELLS: usize = 15;

const PICTURE: [u64; CELLS] = [
    340_000, 130_000, 70_000, 50_000, 90_000, 320_000, 40_000, 80_000, 90_000, 110_000, 660_000,
    170_000, 150_000, 140_000, 200_000,
];

const MOST: u64 = 16_000_000_000_000_000_000;

// Two lines of the most a cell may hold, of which the sum would be this modulo 2^64.
const WRAPPED: u64 = 13_553_255_926_290_448_384;

const SUM_WRAPPED: [u64; CELLS] = [
    MOST, 0, 0, MOST, 0, MOST, 0, 0, MOST, 0, WRAPPED, 0, 0, WRAPPED, 0,
];

fn table(rt: &impl Print, cells: &[u64]) {
    for cell in cells {
        let _ = print!(rt; " {cell}");
    }
    let _ = println!(rt; "");
}

fn count(rt: &impl Print, name: &str, unit: u64, cells: &[u64]) {
    let _ = match settling_steps(unit, cells) {
        Ok(steps) => println!(rt; "settled {name} {steps}"),
        Err(TableOff) => println!(rt; "settled {name} refused"),
    };
}

// The answer to one step, as one number, and the table after it.
fn step(rt: &impl Print, unit: u64, cells: &[u64], next: &mut [u64]) -> bool {
    let outcome = settling_step(unit, cells, next);
    let _ = print!(rt; "step {}", step_code(outcome));
    table(rt, next);
    matches!(outcome, Ok(Stepped::Changed))
}

// The count, and every step up to the one that changes nothing.
fn settled(rt: &impl Print, name: &str, unit: u64, cells: [u64; CELLS]) {
    count(rt, name, unit, &cells);
    let mut now = cells;
    let mut next = [7u64; CELLS];
    for _ in 0..CELLS {
        if !step(rt, unit, &now, &mut next) {
            return;
        }
        now = next;
    }
}

// One cell too few is lent.
fn short(rt: &impl Print, name: &str, unit: u64, cells: [u64; CELLS]) {
    let mut next = [7u64; CELLS - 1];
    let _ = println!(rt; "short {name}");
    step(rt, unit, &cells, &mut next);
}

// One unit more in the last cell.
fn sum_off() -> [u64; CELLS] {
    let mut cells = PICTURE;
    cells[CELLS - 1] = 200_001;
    cells
}

pub(crate) fn settlings(rt: &impl Print) {
    settled(rt, "picture", 1, PICTURE);
    settled(rt, "picture in kilograms", 2, PICTURE);
    settled(rt, "a sum off by one", 1, sum_off());
    settled(rt, "sums modulo 2^64", 1, SUM_WRAPPED);
    settled(rt, "no such unit", 4, PICTURE);
    short(rt, "picture", 1, PICTURE);
    short(rt, "a sum off by one", 1, sum_off());
}
