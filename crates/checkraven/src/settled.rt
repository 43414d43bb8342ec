// How the shown table of a sheet is settled, printed: the desk accounts for the sheet, and from the exact table on every step is drawn.
// What is refused is printed as the report has it.
use super::page::{Page, Unprinted, print};
use super::picture::{Layout, MOST_PICTURE, draw_end, draw_exact, draw_step, layout_of};
use answers::answer::{NUMBER_UNIT, outcome_code};
use answers::bundle::bundle_code;
use answers::step::{Stepped, TableOff};
use bundle::entry::sheet_of;
use bundle::header::{MOST_SHEETS, cells_per_sheet, sheet_count};
use desk::cells::COLUMNS;
use desk::declare::declare;
use desk::lent::Sources;
use desk::table::MOST_CELLS;
use desk::works::declare_bundle;
use folder::given::Given;
use headers::sheet::{MOST_LINES, line_count};
use headers::unit::unit_of;
use little::part::part;
use little::read::u32_at;
use steps::count::settling_steps;
use steps::step::settling_step;
use text::declare::sources_first;
use text::read::{MOST_SHEET, sheet_from_text};

// The bytes of a line that has two words and two numbers, or fewer, at most.
const MOST_WORDS: usize = 64;

// The cells of both results: enough for so many sheets of all lines, as the report has them.
const ROOM: usize = MOST_SHEETS * MOST_CELLS;

// A refusal that is one number, as a bundle's outcomes are.
fn print_refusal(rt: &impl Print, code: u64) -> Result<(), Unprinted> {
    let mut room = [0u8; MOST_WORDS];
    let mut page = Page::new(&mut room);
    page.put(b"refused ");
    page.number(code / NUMBER_UNIT);
    page.put(b" line ");
    page.number(code % NUMBER_UNIT);
    page.put(b"\n");
    print(rt, page.text())
}

fn print_exact(rt: &impl Print, layout: Layout, exact: &[u64]) -> Result<(), Unprinted> {
    let mut room = [0u8; MOST_PICTURE];
    let mut page = Page::new(&mut room);
    draw_exact(&mut page, layout, exact);
    print(rt, page.text())
}

fn print_step(
    rt: &impl Print,
    layout: Layout,
    count: usize,
    before: &[u64],
    after: &[u64],
) -> Result<(), Unprinted> {
    let mut room = [0u8; MOST_PICTURE];
    let mut page = Page::new(&mut room);
    draw_step(&mut page, layout, count, before, after);
    print(rt, page.text())
}

fn print_end(rt: &impl Print, steps: usize) -> Result<(), Unprinted> {
    let mut room = [0u8; MOST_WORDS];
    let mut page = Page::new(&mut room);
    draw_end(&mut page, steps);
    print(rt, page.text())
}

fn changes(code: u64, table: &[u64], next: &mut [u64]) -> bool {
    matches!(settling_step(code, table, next), Ok(Stepped::Changed))
}

// Prints step number `count`, and the table becomes the one after it.
fn step(
    rt: &impl Print,
    code: u64,
    layout: Layout,
    count: usize,
    table: &mut [u64],
) -> Result<(), Unprinted> {
    let mut next = [0u64; MOST_CELLS];
    if !changes(code, table, &mut next) {
        return Err(Unprinted);
    }
    print_step(rt, layout, count, table, &next)?;
    for (cell, after) in table.iter_mut().zip(next.iter()) {
        *cell = *after;
    }
    Ok(())
}

fn print_steps(
    rt: &impl Print,
    code: u64,
    layout: Layout,
    steps: usize,
    table: &mut [u64],
) -> Result<(), Unprinted> {
    for i in 0..steps {
        step(rt, code, layout, i + 1, table)?;
    }
    Ok(())
}

fn print_all(
    rt: &impl Print,
    code: u64,
    layout: Layout,
    steps: usize,
    table: &mut [u64],
) -> Result<(), Unprinted> {
    print_exact(rt, layout, table)?;
    print_steps(rt, code, layout, steps, table)?;
    print_end(rt, steps)
}

// An accepted sheet, from its exact table on.
fn print_settling(
    rt: &impl Print,
    sheet: &[u8],
    lines: usize,
    table: &mut [u64],
) -> Result<(), Unprinted> {
    let code = u32_at(sheet, 12) as u64;
    let layout = layout_of(unit_of(sheet), lines, table);
    match settling_steps(code, table) {
        Ok(steps) => print_all(rt, code, layout, steps, table),
        Err(TableOff) => Err(Unprinted),
    }
}

// What the desk answered to a sheet as one number, and its result with the exact table.
fn print_answer(
    rt: &impl Print,
    answer: u64,
    sheet: &[u8],
    exact: &mut [u64],
) -> Result<(), Unprinted> {
    if answer != 0 {
        return print_refusal(rt, answer);
    }
    let lines = line_count(sheet);
    if MOST_LINES < lines {
        return Err(Unprinted);
    }
    match exact.get_mut(..COLUMNS * (lines + 1)) {
        Some(table) => print_settling(rt, sheet, lines, table),
        None => Err(Unprinted),
    }
}

fn settled_sheet(rt: &impl Print, sources: Sources<'_>, sheet: &[u8]) -> Result<(), Unprinted> {
    let mut exact = [0u64; MOST_CELLS];
    let mut shown = [0u64; MOST_CELLS];
    let outcome = declare(sources, sheet, &mut exact, &mut shown);
    print_answer(rt, outcome_code(outcome), sheet, &mut exact)
}

fn settled_text(rt: &impl Print, sources: Sources<'_>, typed: &[u8]) -> Result<(), Unprinted> {
    let mut sheet = [0u8; MOST_SHEET];
    match sheet_from_text(typed, &mut sheet) {
        Ok(bytes) => settled_sheet(rt, sources, part(&sheet, 0, bytes)),
        Err(refusal) => print_refusal(rt, outcome_code(sources_first(sources, Err(refusal)))),
    }
}

// An empty line stands before every sheet but the first.
fn print_sheet_line(rt: &impl Print, count: usize) -> Result<(), Unprinted> {
    let mut room = [0u8; MOST_WORDS];
    let mut page = Page::new(&mut room);
    if count != 1 {
        page.put(b"\n");
    }
    page.put(b"sheet ");
    page.number(count as u64);
    page.put(b"\n");
    print(rt, page.text())
}

// Sheet i of a bundle that is taken, with its run of the exact result.
fn print_sheet(
    rt: &impl Print,
    bundle: &[u8],
    i: usize,
    outcomes: &[u64],
    run: &mut [u64],
) -> Result<(), Unprinted> {
    match outcomes.get(i) {
        Some(answer) => {
            print_sheet_line(rt, i + 1)?;
            print_answer(rt, *answer, sheet_of(bundle, i), run)
        }
        None => Err(Unprinted),
    }
}

fn print_sheets(
    rt: &impl Print,
    bundle: &[u8],
    outcomes: &[u64],
    exact: &mut [u64],
) -> Result<(), Unprinted> {
    let cells = cells_per_sheet(bundle);
    let mut rest = exact;
    for i in 0..sheet_count(bundle) {
        let Some((run, behind)) = rest.split_at_mut_checked(cells) else {
            return Err(Unprinted);
        };
        print_sheet(rt, bundle, i, outcomes, run)?;
        rest = behind;
    }
    Ok(())
}

fn settled_bundle(rt: &impl Print, sources: Sources<'_>, bundle: &[u8]) -> Result<(), Unprinted> {
    let mut exact = [0u64; ROOM];
    let mut shown = [0u64; ROOM];
    let mut outcomes = [0u64; MOST_SHEETS];
    let whole = declare_bundle(sources, bundle, &mut exact, &mut shown, &mut outcomes);
    match whole {
        Ok(()) => print_sheets(rt, bundle, &outcomes, &mut exact),
        Err(_) => print_refusal(rt, bundle_code(whole)),
    }
}

// What is given, whichever it is.
pub(crate) fn print_settled(
    rt: &impl Print,
    given: Given,
    sources: Sources<'_>,
    file: &[u8],
) -> Result<(), Unprinted> {
    match given {
        Given::Sheet => settled_sheet(rt, sources, file),
        Given::Typed => settled_text(rt, sources, file),
        Given::Bundle => settled_bundle(rt, sources, file),
    }
}
