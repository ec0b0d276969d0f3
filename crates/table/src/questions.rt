ghost use Rattle.std.specs.Prelude.{◌≡◌, ℕ, ◌<◌, length, slice_index_or, None};
ghost use Rattle.table.specs.Below.{all_below};
ghost use Rattle.table.specs.Layout.{described, rows_of};
ghost use Rattle.table.specs.Questions.{span_fault, place_fault, input_fault, first_fault};
ghost use Rattle.table.specs.Reading.{ok_unless, earliest_end, input_passes, passes_by};
ghost use Rattle.table.specs.View.{Checked};

use crate::faults::Fault;
use crate::form::Form;
use crate::layout::{Header, read_header};
use crate::rows::Row;

impl Header {
    // Questions 4 to 6 of a row; `before` is the end of the row before it on its core. If there is none it is 0, the
    // frame's beginning, which no row starts before.
    fn check_span(self, task: u16, row: Row, before: u32) -> Result<(), Fault>
        ensures { result ≡ ok_unless (span_fault self.cores self.ticks task row before) }
    {
        if row.core >= self.cores {
            return Err(Fault::NoSuchCore(task));
        }
        if row.start >= row.end || row.end > self.ticks {
            return Err(Fault::BadSpan(task));
        }
        if row.start < before {
            return Err(Fault::OutOfOrder(task));
        }
        Ok(())
    }

    // Question 7 of a row at one core, of which `earliest` is the earliest end, if a row lies on it.
    fn input_passes(self, row: Row, core: u32, earliest: Option<u32>) -> bool
        ensures { result ≡ input_passes self.cores row core earliest }
    {
        !row.inputs.contains(core)
            || (!row.lies_on(core)
                && core < u32::from(self.cores)
                && earliest.is_some_and(|end| end <= row.start))
    }

    // Question 7 of a row, for each of its 8 data bits.
    fn inputs_pass(self, row: Row, earliest: &[Option<u32>; 8]) -> bool
        ensures { result ≡ all_below 8 (passes_by self.cores row earliest.now) }
    {
        (0..8).all(|core| self.input_passes(row, core, earliest[core as usize]))
    }
}

// These loops go over the numbers of rows: a row is read from bits by its number, and a fault tells that number. Two
// of them carry on what earlier rows left; the third is of their shape.
impl Form<'_> {
    // Questions 4 to 6 of each row in turn.
    fn check_places(&self) -> Result<(), Fault>
        ensures { result ≡ ok_unless (first_fault (place_fault (described self.now.bytes.now)) 0 self.now.header.tasks) }
    {
        let mut last_ends = [0; 8];
        for task in 0..self.header.tasks {
            let row = self.row(task);
            let core = usize::from(row.core);
            self.header.check_span(task, row, last_ends[core])?;
            last_ends[core] = row.end;
        }
        Ok(())
    }

    // For each core the earliest end of its rows, if it has one.
    fn earliest_ends(&self) -> [Option<u32>; 8]
        ensures room { length result ≡ 8 }
        ensures each { (k : ℕ) → k < 8 → slice_index_or result k None ≡ earliest_end k (rows_of self.now.bytes.now self.now.header.tasks) }
    {
        let mut ends = [None; 8];
        for task in 0..self.header.tasks {
            let row = self.row(task);
            let core = usize::from(row.core);
            ends[core] = Some(ends[core].map_or(row.end, |end| row.end.min(end)));
        }
        ends
    }

    // Question 7 of each row in turn.
    fn check_inputs(&self) -> Result<(), Fault>
        ensures { result ≡ ok_unless (first_fault (input_fault (described self.now.bytes.now)) 0 self.now.header.tasks) }
    {
        let earliest = self.earliest_ends();
        for task in 0..self.header.tasks {
            if !self.header.inputs_pass(self.row(task), &earliest) {
                return Err(Fault::BadInputs(task));
            }
        }
        Ok(())
    }
}

// Asks every question of the bytes.
pub(crate) fn checked(bytes: &[u8]) -> Result<Form<'_>, Fault>
    ensures { Checked bytes.now result }
{
    let header = read_header(bytes)?;
    let form = Form { bytes, header };
    form.check_places()?;
    form.check_inputs()?;
    Ok(form)
}
