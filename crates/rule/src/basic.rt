ghost use Rattle.std.specs.Prelude.{◌≡◌};
ghost use Rattle.rule.specs.Law.{by_slack, never};
ghost use Rattle.std.proofs.Common.{rules};

use crate::Rule;
use crate::question::Question;

// Never lets a task go before its turn.
#[derive(Clone, Copy, PartialEq, Eq, Debug)]
pub struct Locked;

impl Rule for Locked {
    ghost says = { λ _. never };

    ghost after = { λ x _. x };

    ghost covered = { Prim.search rules };

    fn allows(&mut self, question: Question) -> bool {
        false
    }
}

// Lets a task go exactly when the slack covers the reserve and the claim.
#[derive(Clone, Copy, PartialEq, Eq, Debug)]
pub struct BySlack;

impl Rule for BySlack {
    ghost says = { λ _. by_slack };

    ghost after = { λ x _. x };

    ghost covered = { Prim.search rules };

    fn allows(&mut self, question: Question) -> bool {
        i64::from(question.slack) >= i64::from(question.reserve) + i64::from(question.claim)
    }
}
