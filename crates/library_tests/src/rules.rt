// The rules at their edges.
use rule::Rule;
use rule::basic::{BySlack, Locked};
use rule::cap::Capped;
use rule::question::Question;

fn question(slack: i32, reserve: u32, claim: u32, loose: u8) -> Question {
    Question {
        slack,
        reserve,
        claim,
        loose,
    }
}

#[test]
fn the_locked_rule_never_says_yes(rt: HostRuntime) {
    let mut rule = Locked;
    assert!(rt; !rule.allows(question(2_147_483_647, 0, 0, 0)));
    assert!(rt; !rule.allows(question(-1, 10, 10, 1)));
}

#[test]
fn slack_has_to_cover_reserve_and_claim(rt: HostRuntime) {
    let mut rule = BySlack;
    assert!(rt; rule.allows(question(20, 10, 10, 1)));
    assert!(rt; !rule.allows(question(19, 10, 10, 1)));
    assert!(rt; rule.allows(question(10, 0, 10, 0)));
    assert!(rt; rule.allows(question(0, 0, 0, 0)));
    assert!(rt; !rule.allows(question(-1, 0, 0, 0)));
    assert!(rt; !rule.allows(question(-2_147_483_648, 0, 0, 0)));
    assert!(rt; !rule.allows(question(2_147_483_647, 4_294_967_295, 4_294_967_295, 255)));
}

#[test]
fn a_cap_counts_the_loose_tasks(rt: HostRuntime) {
    let mut none = Capped::new(0, BySlack);
    assert!(rt; !none.allows(question(20, 0, 10, 0)));
    let mut two = Capped::new(2, BySlack);
    assert!(rt; two.allows(question(20, 10, 10, 1)));
    assert!(rt; !two.allows(question(20, 10, 10, 2)));
    assert!(rt; !two.allows(question(19, 10, 10, 1)));
    let mut most = Capped::new(255, BySlack);
    assert!(rt; most.allows(question(20, 10, 10, 254)));
    assert!(rt; !most.allows(question(20, 10, 10, 255)));
    let mut locked = Capped::new(255, Locked);
    assert!(rt; !locked.allows(question(20, 0, 0, 0)));
    let mut nested = Capped::new(3, Capped::new(1, BySlack));
    assert!(rt; nested.allows(question(20, 0, 10, 0)));
    assert!(rt; !nested.allows(question(20, 0, 10, 1)));
}
