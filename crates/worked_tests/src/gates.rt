//! Gates (xp_preempt).
use xp_preempt::{Listed, Never, Paced, Preempt};

// Which of the next asks, up to 12, are answered by yes: one bit for each, the first lowest.
fn asked(gate: &mut dyn Preempt, asks: u32) -> u32 {
    let mut yes = 0;
    for k in 0..asks.min(12) {
        if gate.due() {
            yes |= 1 << k;
        }
    }
    yes
}

#[test]
fn a_paced_gate_says_yes_in_step_with_all_its_asks(rt: HostRuntime) {
    let mut gate = Paced::new();
    assert!(rt; asked(&mut gate, 2) == 0);
    // asks 3 to 8, then 9 and 10, then 11 to 22
    for (pace, asks, yes) in [(3, 6, 0b001001), (1, 2, 0b11), (0, 12, 0)] {
        gate.pace(pace);
        assert!(rt; asked(&mut gate, asks) == yes, "at pace {pace}");
    }
    assert!(rt; gate.yes() == 4);
}

#[test]
fn a_listed_gate_says_yes_where_its_list_says_so(rt: HostRuntime) {
    let asks = [4u64, 1].to_vec(rt.alloc()).expect(&rt, "memory");
    let mut gate = Listed::new(asks);
    gate.pace(1);
    assert!(rt; (asked(&mut gate, 6), gate.yes()) == (0b001001, 2));
}

#[test]
fn a_third_gate_says_no_whatever_its_pace(rt: HostRuntime) {
    let mut gate = Never::new();
    gate.pace(1);
    assert!(rt; (asked(&mut gate, 4), gate.yes()) == (0, 0));
}
