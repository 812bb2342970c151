// Who can be paired out, and in how many steps completion says so.

use crate::rules::{Free, Strangers};
use dutch_order::{Budget, Rule};
use dutch_pair::{Answer, completes};

// What completion answers for five players within 35 steps.
fn answer_for_five<R: Rule>(rule: &R) -> Answer {
    let mut budget = Budget { limit: 35, used: 0 };
    completes(&[1, 2, 3, 4, 5], rule, &mut budget)
}

#[test]
fn five_players(rt: HostRuntime) {
    assert_eq!(rt; answer_for_five(&Free), Answer::Yes);
    assert_eq!(rt; answer_for_five(&Strangers), Answer::No);
}

#[test]
fn a_limit_one_too_low(rt: HostRuntime) {
    let players = [1, 2, 3, 4];
    let mut enough = Budget { limit: 8, used: 6 };
    assert_eq!(rt; completes(&players, &Free, &mut enough), Answer::Yes);
    let mut low = Budget { limit: 7, used: 6 };
    assert_eq!(rt; completes(&players, &Free, &mut low), Answer::Undecided);
    assert_eq!(rt; (enough.used, low.used), (8, 7));
}
