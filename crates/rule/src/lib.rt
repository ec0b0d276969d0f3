// The rules: whether a task may go before its turn. Two basic ones, and one that caps how many are loose.
#![tactic(auto)]

ghost use Rattle.std.specs.Prelude.{Bool, ◌≡◌};
ghost use Rattle.rule.specs.Law.{Covered};
ghost use Rattle.rule.specs.declared.question.Question.{Question};

use question::Question;

pub mod basic;
pub mod cap;
pub mod question;

// A rule decides whether a task may go before its turn. It may have a memory, so that asking it changes it.
pub trait Rule {
    // Its meaning: the questions to which it would now say yes.
    ghost says: { Self → Question → Bool };

    // The rule after a question.
    ghost after: { Self → Question → Self };

    fn allows(&mut self, question: Question) -> bool
        ensures answer { result ≡ says self.old question }
        ensures moved { self.new ≡ after self.old question };

    // At every moment a yes means that the slack covers the reserve and the claim.
    ghost covered: { (x : Self) → Covered (says x) };
}
