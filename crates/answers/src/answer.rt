// What the desk answers: figures, or one refusal.
ghost use Rattle.std.specs.Prelude.{◌≡◌, Err};
ghost use Rattle.answers.specs.Answer.{answer_line, answer_number, code_of, file_rule, line_rule};

// In an answer that is one number a refusal's number is counted in these, so that the line, a u16, stands below it.
pub const NUMBER_UNIT: u64 = 65536;

// What is wrong with a whole file or a whole result, in the order in which it is looked for. Rule 1 is for either book, the works' own and
// the published one. A sheet is a binary one or a text.
#[derive(Clone, Copy, Debug, PartialEq, Eq)]
pub enum FileFault {
    OwnBookMalformed,
    BookMalformed,
    FugitiveMalformed,
    SheetMalformed,
    TextMalformed,
    ResultTooShort,
}

// What is wrong with a line, in the order in which it is looked for.
#[derive(Clone, Copy, Debug, PartialEq, Eq)]
pub enum LineFault {
    ActivityTooLarge,
    ReuseTooLarge,
    BadGrade,
    NoRow,
    NoFugitiveEntry,
    NoTechnique,
    WrongKind,
    BadReading,
    ZeroDivisor,
    KAboveOne,
}

// What is refused: a whole file or a whole result, or a line of the sheet, which counts from 1. Where nothing is refused the desk answers
// `Ok(())`.
#[derive(Clone, Copy, Debug, PartialEq, Eq)]
pub enum Refusal {
    File(FileFault),
    Line(LineFault, u16),
}

// A refusal has a number, a line and a code, so that each is a method by its name and no conversion.

impl FileFault {
    // The number of the broken rule, 1 to 3, 12 or 13.
    pub fn number(self) -> u16
        ensures { result ≡ file_rule self }
    {
        match self {
            FileFault::OwnBookMalformed => 1,
            FileFault::BookMalformed => 1,
            FileFault::FugitiveMalformed => 13,
            FileFault::SheetMalformed => 2,
            FileFault::TextMalformed => 12,
            FileFault::ResultTooShort => 3,
        }
    }
}

impl LineFault {
    // The number of the broken rule, 4 to 11, 14 or 15.
    pub fn number(self) -> u16
        ensures { result ≡ line_rule self }
    {
        match self {
            LineFault::ActivityTooLarge => 4,
            LineFault::ReuseTooLarge => 5,
            LineFault::BadGrade => 15,
            LineFault::NoRow => 6,
            LineFault::NoFugitiveEntry => 14,
            LineFault::NoTechnique => 7,
            LineFault::WrongKind => 8,
            LineFault::BadReading => 9,
            LineFault::ZeroDivisor => 10,
            LineFault::KAboveOne => 11,
        }
    }
}

impl Refusal {
    // The refusal's number.
    pub fn number(self) -> u16
        ensures { result ≡ answer_number (Err self) }
    {
        match self {
            Refusal::File(fault) => fault.number(),
            Refusal::Line(fault, _) => fault.number(),
        }
    }

    // The refusal's line; 0 where no single line is meant.
    pub fn line(self) -> u16
        ensures { result ≡ answer_line (Err self) }
    {
        match self {
            Refusal::File(_) => 0,
            Refusal::Line(_, line) => line,
        }
    }

    // The refusal as one number: its number times 65,536, and its line.
    pub fn code(self) -> u64
        ensures { result ≡ code_of (Err self) }
    {
        (self.number() as u64) * NUMBER_UNIT + (self.line() as u64)
    }
}

// The answer as one number: 0 where nothing is refused, else the refusal's.
pub fn outcome_code(outcome: Result<(), Refusal>) -> u64
    ensures { result ≡ code_of outcome }
{
    match outcome {
        Ok(()) => 0,
        Err(refusal) => refusal.code(),
    }
}
