ghost use Rattle.std.specs.Prelude.{◌≡◌, ◌≤◌, List, [], ℕ};
ghost use Rattle.console.specs.declared.buffer.TheConstants.{MOST};

// The most bytes that are kept. A longer line is bad whatever it holds, and so is one of just this length.
const MOST: usize = 81;

// The line so far, in fixed memory: as much of it as can matter.
#[derive(Clone, Copy)]
pub struct LineBuffer {
    // Of these, the first `len` count.
    // An `ArrayVec` would hold both, but it is not `Copy`, and callers may copy a `LineBuffer`.
    pub(crate) bytes: [u8; MOST],
    pub(crate) len: usize,
    ghost within: { len ≤ MOST },
}

impl LineBuffer {
    ghost use Rattle.console.specs.Kept.{kept, pushed, LosesNothing};

    // A line of which nothing has come yet.
    pub fn new() -> LineBuffer
        ensures { kept result ≡ [] }
    {
        LineBuffer {
            bytes: [0; MOST],
            len: 0,
        }
    }

    // Adds a byte to the line so far. Past the most that are kept it is let go.
    #[tactic(auto, using(crate::proofs::Cut::push_fits, crate::proofs::Cut::push_full))]
    pub fn push(&mut self, byte: u8)
        ensures { kept self.new ≡ pushed (kept self.old) byte }
    {
        if self.len < MOST {
            self.bytes[self.len] = byte;
            self.len += 1;
        }
    }

    // What is kept of the line. Whatever was pushed, it reads as the whole line does.
    pub fn line(&self) -> &[u8]
        ensures is { result.now ≡ kept self.now }
        ensures enough { (whole : List ℕ) → LosesNothing whole }
    {
        &self.bytes[..self.len]
    }

    // Begins the next line.
    pub fn clear(&mut self)
        ensures { kept self.new ≡ [] }
    {
        self.len = 0;
    }
}
