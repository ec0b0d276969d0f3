ghost use Rattle.std.specs.Prelude.{◌≡◌};
ghost use Rattle.board.specs.Standing.{plan_at, progress_at};
ghost use Rattle.vectors.specs.Links.{links_of};
ghost use Rattle.vectors.specs.Reached.{Reached, standing};

use crate::state::{Links, Vectors};
use board::progress::Progress;

// A board that remembers notices as bit vectors. Its vectors are those that the orders given since its opening lead to.
#[derive(Clone, Copy)]
pub struct VectorBoard {
    pub(crate) progress: Progress,
    pub(crate) vectors: Vectors,
    pub(crate) links: Links,
    ghost reached: { ∥ Reached (plan_at progress) (standing (progress_at progress) vectors) ∥₁ },
    ghost linked: { links ≡ links_of (plan_at progress) },
}
