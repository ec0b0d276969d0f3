// Plays the lines of standard input on the table in `table.isw`, and writes what each comes to.
#![tactic(auto)]

use board::Board;
use console::buffer::LineBuffer;
use console::feeding::take_byte;
use console::{Shown, play_line};
use frame::Frame;
use rule::basic::BySlack;
use std::fs::File;
use std::io;
use std::io::{BufWriter, Read, Stdout, Write};
use table::lawful::Table;
use vectors::vector_board::VectorBoard;

const FILE: &str = "table.isw";

// One byte more than the largest table has. A file of so many bytes is refused, so what follows need not be read.
const MOST: u64 = 4231;

// How much of the input is read at once, at most.
const CHUNK: usize = 8192;

// A frame as the stations run it.
type StationFrame = Frame<VectorBoard, BySlack>;

// As much of the file as tells whether it is a table.
fn read_file(rt: &HostRuntime) -> io::Result<Vec<u8>> {
    let mut bytes = Vec::new(rt.alloc());
    File::open(rt, FILE)?.take(MOST).read_to_end(&mut bytes)?;
    Ok(bytes)
}

// The table in the file, if it can be read and holds one. Unlike the walkthrough's, it gives no reason.
fn read_table(rt: &HostRuntime) -> Option<Table> {
    let bytes = read_file(rt).ok()?;
    let mut table = Table::new();
    table.load(bytes.as_slice()).ok()?;
    Some(table)
}

// A session as it is played: the frame, the line so far, and what lines show.
#[derive(Drop)]
struct Session {
    frame: StationFrame,
    line: LineBuffer,
    output: BufWriter<Stdout>,
}

impl Session {
    // A session on a table, of which no line has come yet.
    fn open(rt: &HostRuntime, table: &Table) -> io::Result<Session> {
        Ok(Session {
            frame: Frame::open(table, VectorBoard::new(), BySlack),
            line: LineBuffer::new(),
            output: BufWriter::new(rt.alloc(), rt.stdout())?,
        })
    }

    // Writes what a line shows.
    fn show(&mut self, shown: Shown) -> io::Result<()> {
        writeln!(self.output, "{shown}")
    }

    // Waits for the next part of the input, whatever its length, and plays each line that ends in it. All that these
    // lines show is written before this returns. Answers whether there was any input.
    fn play_part(&mut self, rt: &HostRuntime) -> io::Result<bool> {
        let mut chunk = [0; CHUNK];
        let count = rt.stdin().read(&mut chunk)?;
        for byte in chunk.iter().take(count) {
            // Asked here, since most bytes show nothing.
            if let Some(shown) = take_byte(&mut self.frame, &mut self.line, *byte) {
                self.show(shown)?;
            }
        }
        self.output.flush()?;
        Ok(count > 0)
    }

    // Plays the whole input, and at its end what is left without a newline.
    fn play_input(&mut self, rt: &HostRuntime) -> io::Result<()> {
        // The kit's form of a loop that waits on input: no input has so many parts.
        for _ in 0..u64::MAX {
            if !self.play_part(rt)? {
                break;
            }
        }
        if let Some(shown) = play_line(&mut self.frame, self.line.line()) {
            self.show(shown)?;
        }
        self.output.flush()
    }
}

fn run(rt: &HostRuntime) -> io::Result<()> {
    let Some(table) = read_table(rt) else {
        return println!(rt; "no table");
    };
    Session::open(rt, &table)?.play_input(rt)
}

fn main(rt: HostRuntime) -> io::Result<()> {
    run(&rt)
}
