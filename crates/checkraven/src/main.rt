// The desk as a program: in the folder it is started in it reads `own.bin` where that is there, `book.bin`, `fugitive.bin`, and
// `bundle.bin` where that is there, else `sheet.bin`, else `sheet.csv`, and prints the report; asked by `--settle`, how the shown table is
// settled.
#![tactic(auto)]

mod page;
mod picture;
mod settled;

ghost use Rattle.std.specs.Prelude.{◌^◌, ◌<◌, ◌≤◌, ◌≡◌, length};
ghost use Rattle.desk.specs.Lent.{contents};
ghost use Rattle.folder.specs.Given.{given_report, most_given};

use desk::lent::Sources;
use folder::files::{load, load_open, room};
use folder::given::{Given, whole_report};
use headers::book::NO_ROWS;
use headers::house::MOST_BYTES;
use little::part::part;
use page::{Unprinted, print};
use report::{MOST_BUNDLE_TEXT, MOST_TEXT};
use settled::print_settled;
use std::env::Env;
use std::fs;
use std::io::{self, ErrorKind, Read};
use std::rt::Files;

// The longest word that is asked for. Of a longer one no letter is counted.
const MOST_WORD: usize = 8;

// What is printed of the folder.
#[derive(Clone, Copy)]
enum Asked {
    Figures,
    Settling,
}

fn read_asked(rt: &impl Env) -> Asked {
    let mut word = [0u8; MOST_WORD];
    let letters = rt.arg(1, &mut word).unwrap_or(0);
    match part(&word, 0, letters) {
        b"--settle" => Asked::Settling,
        _ => Asked::Figures,
    }
}

// Whether there is no file of the name that was to be opened. One that is there and can't be opened is not missing.
fn is_missing<F>(opened: &io::Result<F>) -> bool {
    match opened {
        Ok(_) => false,
        Err(error) => error.kind() == ErrorKind::NotFound,
    }
}

// Where there is no own book the works has no factors of its own, and lends one without rows. One that is there is taken, also where it
// cannot be read: figures by the published factors must not be declared in its place.
fn load_own<'a>(rt: &impl Files, room: &'a mut [u8]) -> &'a [u8] {
    let file = fs::open(rt, "own.bin");
    if is_missing(&file) {
        return &NO_ROWS;
    }
    load_open(file, room)
}

// All of the report, which a text of that size always has room for.
fn all_of_report<'a>(
    given: Given,
    sources: Sources<'_>,
    file: &[u8],
    text: &'a mut [u8],
) -> &'a [u8]
    requires { most_given given ≤ length text.old }
    ensures { result.now ≡ given_report given (contents sources.entry) file.now }
{
    whole_report(given, sources, file, text)
}

// In room for N bytes, as many as a report of the given kind has at most.
fn print_report<const N: usize>(
    rt: &impl Print,
    given: Given,
    sources: Sources<'_>,
    file: &[u8],
) -> Result<(), Unprinted>
    requires lent { N < 2 ^ 63 }
    requires enough { most_given given ≤ N }
{
    let mut text = room::<N>();
    print(rt, all_of_report(given, sources, file, &mut text))
}

fn print_figures(
    rt: &impl Print,
    given: Given,
    sources: Sources<'_>,
    file: &[u8],
) -> Result<(), Unprinted> {
    match given {
        Given::Bundle => print_report::<MOST_BUNDLE_TEXT>(rt, given, sources, file),
        _ => print_report::<MOST_TEXT>(rt, given, sources, file),
    }
}

// One byte more than the limit is read, so that a longer file is refused and not cut. A word on standard error where something could not be
// written.
fn print_given<F: Read + Drop>(
    rt: &(impl Print + Eprint),
    asked: Asked,
    sources: Sources<'_>,
    given: Given,
    file: io::Result<F>,
) {
    let mut room = [0u8; MOST_BYTES + 1];
    let content = load_open(file, &mut room);
    let printed = match asked {
        Asked::Figures => print_figures(rt, given, sources, content),
        Asked::Settling => print_settled(rt, given, sources, content),
    };
    if printed.is_err() {
        let _ = rt.eprint("checkraven: the report could not be written\n");
    }
}

// A bundle, and else a binary sheet, that is there is taken, also where it cannot be read: nothing else in the folder must be declared in its
// place. Where there is no sheet at all, it counts as an empty one.
fn print_folder(rt: &(impl Files + Print + Eprint), asked: Asked, sources: Sources<'_>) {
    let bundle = fs::open(rt, "bundle.bin");
    if !is_missing(&bundle) {
        return print_given(rt, asked, sources, Given::Bundle, bundle);
    }
    let sheet = fs::open(rt, "sheet.bin");
    if !is_missing(&sheet) {
        return print_given(rt, asked, sources, Given::Sheet, sheet);
    }
    let typed = fs::open(rt, "sheet.csv");
    if !is_missing(&typed) {
        return print_given(rt, asked, sources, Given::Typed, typed);
    }
    print_given(rt, asked, sources, Given::Sheet, sheet);
}

fn main(rt: HostRuntime) {
    let mut own = [0u8; MOST_BYTES + 1];
    let mut book = [0u8; MOST_BYTES + 1];
    let mut fugitive = [0u8; MOST_BYTES + 1];
    let sources = Sources {
        own: load_own(&rt, &mut own),
        book: load(&rt, "book.bin", &mut book),
        fugitive: load(&rt, "fugitive.bin", &mut fugitive),
    };
    print_folder(&rt, read_asked(&rt), sources);
}
