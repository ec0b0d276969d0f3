ghost use Rattle.table.specs.Reading.{HeadRead};

use crate::bits::read_field;
use crate::faults::Fault;

// The first byte of a table.
const MARK: u8 = 87;

// What the header says behind its mark.
#[derive(Clone, Copy)]
pub(crate) struct Header {
    pub(crate) cores: u8,
    pub(crate) tasks: u16,
    // The length of the frame.
    pub(crate) ticks: u32,
}

// Questions 1 to 3: the mark, the number of tasks, and a length of just so many rows.
pub(crate) fn read_header(bytes: &[u8]) -> Result<Header, Fault>
    ensures { HeadRead bytes.now result }
{
    let [mark, rest @ ..] = bytes else {
        return Err(Fault::NotATable);
    };
    if *mark != MARK || rest.len() < 5 {
        return Err(Fault::NotATable);
    }
    let tasks = read_field(bytes, 11, 9) as u16;
    if !(1..=384).contains(&tasks) {
        return Err(Fault::TaskCount);
    }
    if bytes.len() != 6 + 11 * usize::from(tasks) {
        return Err(Fault::WrongLength);
    }
    let cores = read_field(bytes, 8, 3) as u8 + 1;
    let ticks = read_field(bytes, 20, 28);
    Ok(Header {
        cores,
        tasks,
        ticks,
    })
}
