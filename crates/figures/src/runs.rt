// The desk over the folders of data/: each has a book, a fugitive table and a sheet, which may be typed, or a bundle, and the listing that
// `make-files` made them from, or what was changed. A works with factors of its own has its own book, too.

use desk::lent::Sources;
use folder::files::{load, room};
use folder::given::{Given, whole_report};
use headers::book::NO_ROWS;
use headers::house::MOST_BYTES;
use numerals::bytes::lay;
use report::MOST_BUNDLE_TEXT;
use std::rt::Files;
use std::str;

fn name_of(given: Given) -> &'static str {
    match given {
        Given::Sheet => "sheet.bin",
        Given::Typed => "sheet.csv",
        Given::Bundle => "bundle.bin",
    }
}

// No path of a folder's file is longer.
const MOST_PATH: usize = 61;

// The path of a folder's file; none where it has no room.
fn path_of<'a>(folder: &str, file: &str, room: &'a mut [u8; MOST_PATH]) -> Option<&'a str> {
    let slash = lay(room, 0, folder.as_bytes());
    if MOST_PATH <= slash {
        return None;
    }
    lay(room, slash, b"/");
    let bytes = lay(room, slash + 1, file.as_bytes());
    let end = (slash + 1).saturating_add(bytes);
    str::from_utf8(room.get(..end)?).ok()
}

// A file that is not there is read as no bytes.
fn load_from<'a>(rt: &impl Files, folder: &str, file: &str, room: &'a mut [u8]) -> &'a [u8] {
    let mut path = [0u8; MOST_PATH];
    match path_of(folder, file, &mut path) {
        Some(path) => load(rt, path, room),
        None => &room[..0],
    }
}

// A works without a book of its own lends one without rows.
fn load_own<'a>(rt: &impl Files, folder: &str, room: &'a mut [u8]) -> &'a [u8] {
    let own = load_from(rt, folder, "own.bin", room);
    if own.is_empty() { &NO_ROWS } else { own }
}

// Prints the path of what is given, and what the desk answers.
fn run(rt: &(impl Files + Print), given: Given, folder: &str) {
    let mut own = [0u8; MOST_BYTES];
    let mut book = [0u8; MOST_BYTES];
    let mut fugitive = [0u8; MOST_BYTES];
    let mut content = [0u8; MOST_BYTES];
    let mut text = room::<MOST_BUNDLE_TEXT>();
    let file = name_of(given);
    let sources = Sources {
        own: load_own(rt, folder, &mut own),
        book: load_from(rt, folder, "book.bin", &mut book),
        fugitive: load_from(rt, folder, "fugitive.bin", &mut fugitive),
    };
    let content = load_from(rt, folder, file, &mut content);
    let _ = println!(rt; "run {folder}/{file}");
    let _ = rt.write_all(whole_report(given, sources, content, &mut text));
}

pub(crate) fn runs(rt: &(impl Files + Print)) {
    run(rt, Given::Sheet, "document-000");
    run(rt, Given::Sheet, "document-002");
    run(rt, Given::Sheet, "energy");
    run(rt, Given::Sheet, "two-halves");
}

// At the limits, and over each of them.
pub(crate) fn limit_runs(rt: &(impl Files + Print)) {
    run(rt, Given::Sheet, "limits");
    run(rt, Given::Sheet, "over-hours");
    run(rt, Given::Sheet, "over-kilograms");
    run(rt, Given::Sheet, "over-production");
    run(rt, Given::Sheet, "over-rating");
}

pub(crate) fn fugitive_runs(rt: &(impl Files + Print)) {
    run(rt, Given::Sheet, "fugitive");
    run(rt, Given::Sheet, "fugitive-no-entry");
    run(rt, Given::Sheet, "fugitive-in-water");
    run(rt, Given::Sheet, "fugitive-bad-table");
}

pub(crate) fn own_runs(rt: &(impl Files + Print)) {
    run(rt, Given::Sheet, "own-kiln");
    run(rt, Given::Sheet, "own-neither");
    run(rt, Given::Sheet, "own-bad-book");
}

pub(crate) fn bundle_runs(rt: &(impl Files + Print)) {
    run(rt, Given::Bundle, "bundle-works");
    run(rt, Given::Bundle, "bundle-none");
    run(rt, Given::Bundle, "bundle-short-run");
    run(rt, Given::Bundle, "bundle-bad-book");
    run(rt, Given::Bundle, "bundle-over-room");
    run(rt, Given::Bundle, "bundle-overlapping");
}

pub(crate) fn typed_runs(rt: &(impl Files + Print)) {
    run(rt, Given::Typed, "typed-foundry");
    run(rt, Given::Typed, "typed-hours-over");
    run(rt, Given::Typed, "typed-line-feeds");
}
