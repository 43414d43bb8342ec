// A table that is being settled, drawn: its rows below the letters of their columns, and above them what a step moved.
use super::page::{MOST_FIGURE, Page};
use desk::cells::COLUMNS;
use headers::sheet::MOST_LINES;
use headers::unit::{GRAM, KILOGRAM};
use std::cmp::Ordering;

// The bytes of a row's label, at most: `line 128`.
const MOST_LABEL: usize = 8;

// The bytes of a row, at most: its label, each figure with the spaces before it and its sign, and the line end. What is said of a step is
// shorter, as a round has at most five rows.
const MOST_ROW: usize = MOST_LABEL + COLUMNS * (2 + MOST_FIGURE + 1) + 1;

// The bytes of a picture, at most: an empty line, what is said of it, the letters, the lines and the row of sums.
pub(crate) const MOST_PICTURE: usize = MOST_ROW * (MOST_LINES + 4);

// The columns by their letters.
const LETTERS: [u8; COLUMNS] = *b"GRUDF";

// What all tables of a sheet share: the shown unit, how many lines there are, and how wide labels and figures are.
#[derive(Clone, Copy)]
pub(crate) struct Layout {
    unit: u64,
    lines: usize,
    label: usize,
    figure: usize,
}

// Lines count from 1; behind the last one there is the row of sums.
fn label(page: &mut Page<'_>, lines: usize, i: usize) {
    if lines <= i {
        page.put(b"total");
    } else {
        page.put(b"line ");
        page.number((i + 1) as u64);
    }
}

// No other label is wider than that of the last line.
fn label_width(lines: usize) -> usize {
    let mut widest = [0u8; MOST_LABEL];
    let mut page = Page::new(&mut widest);
    label(&mut page, lines, lines.saturating_sub(1));
    page.text().len()
}

// No cell is larger than the sum of what is generated, and no step takes that past the next whole number, which the amount measured here
// has before its point.
fn figure_width(unit: u64, sum: u64) -> usize {
    if unit == 0 {
        return 0;
    }
    if u64::MAX - unit < sum {
        return MOST_FIGURE;
    }
    let mut widest = [0u8; MOST_FIGURE];
    let mut page = Page::new(&mut widest);
    page.figure(sum + (unit - 1), unit);
    page.text().len()
}

pub(crate) fn layout_of(unit: u64, lines: usize, exact: &[u64]) -> Layout {
    let (rows, _) = exact.as_chunks::<COLUMNS>();
    let sum = match rows.get(lines) {
        Some(sums) => sums[0],
        None => 0,
    };
    Layout {
        unit,
        lines,
        label: label_width(lines),
        figure: figure_width(unit, sum),
    }
}

// Whether a cell went up or down, where it did either.
fn sign(page: &mut Page<'_>, before: u64, after: u64) {
    match before.cmp(&after) {
        Ordering::Less => page.put(b"+"),
        Ordering::Equal => {}
        Ordering::Greater => page.put(b"-"),
    }
}

fn amount(page: &mut Page<'_>, layout: Layout, before: u64, after: u64) {
    let mut digits = [0u8; MOST_FIGURE];
    let mut figure = Page::new(&mut digits);
    figure.figure(after, layout.unit);
    page.right(layout.figure, figure.text());
    sign(page, before, after);
}

// Between two figures there is room for a sign, which may stand there already, and two spaces; between a label and a figure there is one,
// so that nine lines with totals of 14 digits have at most 100 columns, also where a step adds a digit.
fn amounts(page: &mut Page<'_>, layout: Layout, from: &[u64; COLUMNS], to: &[u64; COLUMNS]) {
    let mut gap = b" ".as_slice();
    for (before, after) in from.iter().zip(to.iter()) {
        page.put(gap);
        amount(page, layout, *before, *after);
        gap = if before == after {
            b"   ".as_slice()
        } else {
            b"  ".as_slice()
        };
    }
}

fn padded_label(page: &mut Page<'_>, layout: Layout, i: usize) {
    let mut word = [0u8; MOST_LABEL];
    let mut labelled = Page::new(&mut word);
    label(&mut labelled, layout.lines, i);
    page.left(layout.label, labelled.text());
}

// Row i as it is in the second table, with a sign behind each figure that is another in the first.
fn row(page: &mut Page<'_>, layout: Layout, i: usize, from: &[u64; COLUMNS], to: &[u64; COLUMNS]) {
    padded_label(page, layout, i);
    amounts(page, layout, from, to);
    page.put(b"\n");
}

// Each letter stands above the last digit of its column.
fn head(page: &mut Page<'_>, layout: Layout) {
    page.spaces(layout.label);
    let mut gap = b" ".as_slice();
    for letter in LETTERS {
        page.put(gap);
        page.right(layout.figure, &[letter]);
        gap = b"   ".as_slice();
    }
    page.put(b"\n");
}

// The second table, with signs where the first is another.
fn table(page: &mut Page<'_>, layout: Layout, before: &[u64], after: &[u64]) {
    head(page, layout);
    let (before, _) = before.as_chunks::<COLUMNS>();
    let (after, _) = after.as_chunks::<COLUMNS>();
    for (i, (from, to)) in before.iter().zip(after.iter()).enumerate() {
        row(page, layout, i, from, to);
    }
}

fn title(page: &mut Page<'_>, unit: u64) {
    match unit {
        GRAM => page.put(b"exact, in grams\n"),
        KILOGRAM => page.put(b"exact, in kilograms\n"),
        _ => page.put(b"exact, in tonnes\n"),
    }
}

pub(crate) fn draw_exact(page: &mut Page<'_>, layout: Layout, exact: &[u64]) {
    title(page, layout.unit);
    table(page, layout, exact, exact);
}

// What every cell of the round moved by: by how much the first one did that is another now.
fn moved_by(before: &[u64], after: &[u64]) -> u64 {
    for (from, to) in before.iter().zip(after.iter()) {
        if from != to {
            return from.abs_diff(*to);
        }
    }
    0
}

fn moved_cells(page: &mut Page<'_>, from: &[u64; COLUMNS], to: &[u64; COLUMNS]) {
    for (j, letter) in LETTERS.iter().enumerate() {
        if from[j] != to[j] {
            page.put(&[b' ', *letter]);
            sign(page, from[j], to[j]);
        }
    }
}

// The cells that moved, behind the label of their row.
fn moved_rows(page: &mut Page<'_>, lines: usize, before: &[u64], after: &[u64]) {
    let (before, _) = before.as_chunks::<COLUMNS>();
    let (after, _) = after.as_chunks::<COLUMNS>();
    let mut apart = b" ".as_slice();
    for (i, (from, to)) in before.iter().zip(after.iter()).enumerate() {
        if from != to {
            page.put(apart);
            label(page, lines, i);
            moved_cells(page, from, to);
            apart = b", ".as_slice();
        }
    }
}

// An empty line, and what step number `count` moved by how much.
fn step_line(page: &mut Page<'_>, layout: Layout, count: usize, before: &[u64], after: &[u64]) {
    page.put(b"\nstep ");
    page.number(count as u64);
    page.put(b": by ");
    page.figure(moved_by(before, after), layout.unit);
    page.put(b":");
}

// What a step moved, and the table after it.
pub(crate) fn draw_step(
    page: &mut Page<'_>,
    layout: Layout,
    count: usize,
    before: &[u64],
    after: &[u64],
) {
    step_line(page, layout, count, before, after);
    moved_rows(page, layout.lines, before, after);
    page.put(b"\n");
    table(page, layout, before, after);
}

// An empty line, and after how many steps all is whole.
pub(crate) fn draw_end(page: &mut Page<'_>, steps: usize) {
    page.put(b"\nwhole after ");
    page.number(steps as u64);
    if steps == 1 {
        page.put(b" step\n");
    } else {
        page.put(b" steps\n");
    }
}
