// Writes tables as bytes, and loads them.
use std::alloc::{AllocError, Global};
use std::process::Abort;
use std::test::Fail;
use table::lawful::Table;
use table::rows::{CoreSet, Row};

// The header: the mark, the cores less one in 3 bits, the tasks in 9 and the frame's length in 28.
pub fn header(cores: u64, tasks: u64, ticks: u64) -> [u8; 6] {
    let fields = 87 << 40 | cores.wrapping_sub(1) << 37 | tasks << 28 | ticks;
    let [_, _, a, b, c, d, e, f] = fields.to_be_bytes();
    [a, b, c, d, e, f]
}

// A row: core in 3 bits, start and end in 28 each, claim in 21, and 8 data bits.
pub fn row_bytes(row: Row) -> [u8; 11] {
    let fields = u128::from(row.core) << 77
        | u128::from(row.start) << 49
        | u128::from(row.end) << 21
        | u128::from(row.claim);
    let [_, _, _, _, _, _, a, b, c, d, e, f, g, h, i, j] = fields.to_be_bytes();
    [a, b, c, d, e, f, g, h, i, j, row.inputs.bits]
}

// A row without a data bit.
pub fn row(core: u8, start: u32, end: u32) -> Row {
    Row {
        core,
        start,
        end,
        claim: 10,
        inputs: CoreSet::NONE,
    }
}

// The same row, reading what the cores of these data bits write.
pub fn reading(row: Row, bits: u8) -> Row {
    Row {
        inputs: CoreSet { bits },
        ..row
    }
}

// A table as a test drafts it, lawful or not.
#[derive(Clone, Copy)]
pub struct Draft<'a> {
    cores: u64,
    ticks: u64,
    rows: &'a [Row],
}

impl Draft<'_> {
    pub fn new(cores: u64, ticks: u64, rows: &[Row]) -> Draft<'_> {
        Draft { cores, ticks, rows }
    }

    // The bytes of the whole table.
    pub fn written(self, heap: Global) -> Result<Vec<u8>, AllocError> {
        let mut bytes = Vec::new(heap);
        bytes.extend_from_slice(&header(self.cores, self.rows.len() as u64, self.ticks))?;
        for row in self.rows {
            bytes.extend_from_slice(&row_bytes(*row))?;
        }
        Ok(bytes)
    }

    // The table, which has to be lawful.
    pub fn loaded(self, rt: &impl Abort, heap: Global) -> Result<Table, Fail> {
        let bytes = self.written(heap)?;
        let mut table = Table::new();
        assert!(rt; table.load(bytes.as_slice()).is_ok());
        Ok(table)
    }
}

// The worked example: 3 cores, a frame of 80 ticks, every claim 10, no data bit.
pub fn example() -> [Row; 10] {
    [
        row(0, 0, 40),
        row(0, 40, 50),
        row(0, 50, 55),
        row(0, 55, 70),
        row(1, 0, 40),
        row(1, 50, 60),
        row(1, 60, 70),
        row(1, 70, 80),
        row(2, 0, 40),
        row(2, 40, 60),
    ]
}

// The table of the worked example. The handle that may stop a test gives no heap, so the heap goes beside it.
pub fn example_table(rt: &impl Abort, heap: Global) -> Result<Table, Fail> {
    Draft::new(3, 80, &example()).loaded(rt, heap)
}
