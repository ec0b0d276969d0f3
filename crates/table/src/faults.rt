ghost use Rattle.std.specs.Prelude.{◌≡◌, Some};
ghost use Rattle.table.specs.Faults.{number_of, row_of, offset_of, reason_of, line_of};

use std::error::Error;
use std::fmt;

// Why bytes are no table. A fault of a row carries the row's number.
#[derive(Clone, Copy, PartialEq, Eq, Debug)]
pub enum Fault {
    // Fewer than 6 bytes, or the first is not the mark.
    NotATable,
    // The number of tasks is not from 1 to 384.
    TaskCount,
    // The length is not that of a header and so many rows.
    WrongLength,
    // The row's core is not one of the table's.
    NoSuchCore(u16),
    // The row does not start before it ends, or ends after the frame.
    BadSpan(u16),
    // The row starts before the row before it on its core ends.
    OutOfOrder(u16),
    // A data bit names the row's own core, a core that the table lacks, or one on which no row ends in time.
    BadInputs(u16),
}

impl Fault {
    // The number of the question that was answered no. By cases: a variant that carries a row has no number to cast.
    pub fn number(self) -> u8
        ensures { result ≡ number_of self }
    {
        match self {
            Fault::NotATable => 1,
            Fault::TaskCount => 2,
            Fault::WrongLength => 3,
            Fault::NoSuchCore(_) => 4,
            Fault::BadSpan(_) => 5,
            Fault::OutOfOrder(_) => 6,
            Fault::BadInputs(_) => 7,
        }
    }

    // The row at fault, if it is one. By cases, here and below, as the format tells of each question.
    pub fn row(self) -> Option<u16>
        ensures { result ≡ row_of self }
    {
        match self {
            Fault::NotATable | Fault::TaskCount | Fault::WrongLength => None,
            Fault::NoSuchCore(row)
            | Fault::BadSpan(row)
            | Fault::OutOfOrder(row)
            | Fault::BadInputs(row) => Some(row),
        }
    }

    // The bit, counted from the first of the bytes, at which the field at fault begins.
    pub fn offset(self) -> u32
        ensures { result ≡ offset_of self }
    {
        match self {
            Fault::NotATable => 0,
            Fault::TaskCount => 11,
            Fault::WrongLength => 48,
            Fault::NoSuchCore(row) => 48 + 88 * u32::from(row),
            Fault::BadSpan(row) | Fault::OutOfOrder(row) => 51 + 88 * u32::from(row),
            Fault::BadInputs(row) => 128 + 88 * u32::from(row),
        }
    }

    // What is wrong, in words.
    pub fn reason(self) -> &'static str
        ensures { result.now ≡ reason_of self }
    {
        match self {
            Fault::NotATable => "there are not 6 bytes that begin with the mark 87",
            Fault::TaskCount => "the number of tasks is not from 1 to 384",
            Fault::WrongLength => "the length is not 6 + 11 bytes for each task",
            Fault::NoSuchCore(_) => "the core is not one of the table's",
            Fault::BadSpan(_) => "the start is not before the end, or the end is past the frame",
            Fault::OutOfOrder(_) => "the start is before the end of the row before it on its core",
            Fault::BadInputs(_) =>
                "a data bit names no other core on which a row ends by the start",
        }
    }
}

impl fmt::Display for Fault {
    ghost output = { λ fault. Some (line_of fault) };

    fn fmt<W: fmt::Write>(&self, f: &mut fmt::Formatter<W>) -> fmt::Result {
        let number = self.number();
        let offset = self.offset();
        let reason = self.reason();
        match self.row() {
            Some(row) => write!(f, "question {number}, row {row}, bit {offset}: {reason}"),
            None => write!(f, "question {number}, no row, bit {offset}: {reason}"),
        }
    }
}

impl Error for Fault {}
