ghost use Rattle.std.specs.Prelude.{cond, ◌≡◌, ltb};
ghost use Rattle.rule.specs.Law.{capped};
ghost use Rattle.std.proofs.Common.{rules};

use crate::Rule;
use crate::question::Question;

// Lets at most `cap` tasks be loose at a time, and asks the rule below only while there are fewer.
#[derive(Clone, Copy, Drop, PartialEq, Eq, Debug)]
pub struct Capped<R: Rule> {
    cap: u8,
    below: R,
}

impl<R: Rule> Capped<R> {
    pub fn new(cap: u8, below: R) -> Capped<R>
        ensures { result ≡ record { cap = cap; below = below } }
    {
        Capped { cap, below }
    }
}

impl<R: Rule> Rule for Capped<R> {
    ghost says = { λ x. capped x.cap (R.Rule.says x.below) };

    ghost after = { λ x q. cond (ltb q.loose x.cap) (record x { below = R.Rule.after x.below q }) x };

    ghost covered = { Prim.search rules };

    fn allows(&mut self, question: Question) -> bool {
        question.loose < self.cap && self.below.allows(question)
    }
}
