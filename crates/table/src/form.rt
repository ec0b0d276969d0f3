ghost use Rattle.std.specs.Prelude.{◌≡◌, ◌<◌, length, take};
ghost use Rattle.table.specs.Layout.{row_at, rows_of};
ghost use Rattle.table.specs.Lawful.{RowFits};
ghost use Rattle.table.specs.Reading.{Heads};

use crate::bits::read_field;
use crate::layout::Header;
use crate::rows::{CoreSet, Row};
use std::array;

// Bytes with their header, which hold just its rows.
#[derive(Clone, Copy)]
pub(crate) struct Form<'a> {
    pub(crate) bytes: &'a [u8],
    pub(crate) header: Header,
    ghost heads: { Heads bytes.now header },
}

impl Form<'_> {
    // Row `task` of the bytes, read behind the rows before it: each of its fields lies at a fixed bit there.
    // `fits` is no fact of `Row`: its fields are public, and tests and definitions build rows of any numbers.
    #[tactic(auto, using(crate::proofs::Fields::field_of_row))]
    pub(crate) fn row(&self, task: u16) -> Row
        requires { task < self.now.header.tasks }
        ensures is { result ≡ row_at self.now.bytes.now task }
        ensures fits { RowFits result }
    {
        let bytes = &self.bytes[11 * usize::from(task)..];
        let core = read_field(bytes, 48, 3) as u8;
        let start = read_field(bytes, 51, 28);
        let end = read_field(bytes, 79, 28);
        let claim = read_field(bytes, 107, 21);
        let inputs = CoreSet {
            bits: read_field(bytes, 128, 8) as u8,
        };
        Row {
            core,
            start,
            end,
            claim,
            inputs,
        }
    }

    // The rows of the bytes; those behind them are blank.
    pub(crate) fn rows(&self) -> [Row; 384]
        ensures is { take self.now.header.tasks result ≡ rows_of self.now.bytes.now self.now.header.tasks }
        ensures room { length result ≡ 384 }
    {
        array::from_fn(|task| {
            if task < usize::from(self.header.tasks) {
                self.row(task as u16)
            } else {
                Row::BLANK
            }
        })
    }
}
