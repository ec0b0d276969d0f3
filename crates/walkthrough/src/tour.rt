ghost use Rattle.std.specs.Prelude.{◌≡◌};
ghost use Rattle.walkthrough.specs.Tour.{first_clear};

use board::Board;

// The first core that is clear, if there is one.
pub fn first_clear<B: Board>(board: &B) -> Option<u32>
    ensures { result ≡ first_clear (B.plan board.now) (B.progress board.now) }
{
    (0..u32::from(board.table().cores())).find(|core| board.clear(*core))
}
