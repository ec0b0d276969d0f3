ghost use Rattle.std.specs.Prelude.{◌≡◌, true};
ghost use Rattle.table.specs.Sound.{sound};

use crate::layout::Header;
use crate::rows::Row;

// An empty table, or a lawful one: no other value can be made.
#[derive(Clone, Copy)]
pub struct Table {
    pub(crate) header: Header,
    // The rows, of which the first `header.tasks` count.
    // An array and not an `ArrayVec`: a board copies the table that it opens, and an `ArrayVec` is not `Copy`.
    pub(crate) rows: [Row; 384],
    ghost ok: { sound header.cores header.tasks header.ticks rows ≡ true },
}
