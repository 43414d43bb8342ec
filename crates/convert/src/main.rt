// A sheet converted, in the folder that the program is started in: `--to-csv` prints the text of `sheet.bin`; `--from-csv` makes
// `sheet.bin` from `sheet.csv`, where there is no such file yet, and prints what it did. A file that is not there counts as empty.
#![tactic(auto)]

use answers::answer::Refusal;
use folder::files::load;
use headers::house::MOST_BYTES;
use little::part::part;
use report::{MOST_TEXT, report_refusal};
use std::env::Env;
use std::fs;
use std::fs::{OpenFile, OpenOptions};
use std::io::{self, ErrorKind, Write};
use std::rt::Files;
use text::read::{MOST_SHEET, sheet_from_text};
use text::write::{MOST_SHEET_TEXT, text_from_sheet};

// The longest word that is asked for. Of a longer one no letter is counted.
const MOST_WORD: usize = 10;

// A word on standard error where the answer could not be written.
fn tell(rt: &impl Eprint, printed: io::Result<()>) {
    if printed.is_err() {
        let _ = rt.eprint("convert: the answer could not be written\n");
    }
}

fn print(rt: &(impl Print + Eprint), text: &[u8]) {
    tell(rt, rt.write_all(text));
}

fn print_refusal(rt: &(impl Print + Eprint), refusal: Refusal) {
    let mut text = [0u8; MOST_TEXT];
    if let Ok(bytes) = report_refusal(Err(refusal), &mut text) {
        print(rt, part(&text, 0, bytes));
    }
}

// One byte more than the limit is read here and below, so that a longer file is refused and not cut.
fn to_csv(rt: &(impl Files + Print + Eprint)) {
    let mut sheet = [0u8; MOST_BYTES + 1];
    let mut text = [0u8; MOST_SHEET_TEXT];
    match text_from_sheet(load(rt, "sheet.bin", &mut sheet), &mut text) {
        Ok(bytes) => print(rt, part(&text, 0, bytes)),
        Err(refusal) => print_refusal(rt, refusal),
    }
}

// Whether all was written. A fault that shows only when the file is closed would not be told of: so the file is asked for it before.
fn write_whole<F: Write + OpenFile + Drop>(mut file: F, bytes: &[u8]) -> io::Result<()> {
    file.write_all(bytes)?;
    file.sync_all()
}

// One that could not be written is taken away again.
fn write_sheet<F: Write + OpenFile + Drop>(
    rt: &(impl Files + Print + Eprint),
    file: F,
    sheet: &[u8],
) {
    match write_whole(file, sheet) {
        Ok(()) => tell(rt, println!(rt; "wrote {}", sheet.len())),
        Err(_) => {
            let _ = fs::remove_file(rt, "sheet.bin");
            print(rt, b"failed\n");
        }
    }
}

// The file is made only where there is none of its name.
fn create_sheet(rt: &(impl Files + Print + Eprint), sheet: &[u8]) {
    match OpenOptions::new()
        .write(true)
        .create_new(true)
        .open(rt, "sheet.bin")
    {
        Ok(file) => write_sheet(rt, file, sheet),
        Err(error) if error.kind() == ErrorKind::AlreadyExists => print(rt, b"exists\n"),
        Err(_) => print(rt, b"failed\n"),
    }
}

fn from_csv(rt: &(impl Files + Print + Eprint)) {
    let mut text = [0u8; MOST_BYTES + 1];
    let mut sheet = [0u8; MOST_SHEET];
    match sheet_from_text(load(rt, "sheet.csv", &mut text), &mut sheet) {
        Ok(bytes) => create_sheet(rt, part(&sheet, 0, bytes)),
        Err(refusal) => print_refusal(rt, refusal),
    }
}

fn main(rt: HostRuntime) {
    let mut word = [0u8; MOST_WORD];
    let letters = rt.arg(1, &mut word).unwrap_or(0);
    match part(&word, 0, letters) {
        b"--to-csv" => to_csv(&rt),
        b"--from-csv" => from_csv(&rt),
        _ => print(&rt, b"failed\n"),
    }
}
