//! Whole traces in threads, from the text to the report.
use crate::audit::{counts_agree, live_tables};
use crate::random::{random_destruction, random_trace};
use sparse_words::SparseWords;
use std::process::Abort;
use std::sync::Wait;
use std::thread::Threads;
use trace_text::read_trace;
use xp_machine::{replay, replay_words};
use xp_preempt::{Paced, Preempt};
use xp_words::Layout;

const FIRST_UPDATE: &str =
    "xen-pv-trace 1\nframes 1\ndomain 1\nvcpu 0\nown 0 0 1\nop 0 mmu 0x7ff0 0x1 7\nturn 0 2\nend\n";

const FIRST_REPORT: &str =
    "vcpu 0 domain 0 base - user - old - -\nop 1 ok done 1 value 0x0\ndomain 0 live pages 1\nframe 0 owner 0 refs 1 alloc type none count 0 flags - at 0 m2p 0x7\nfree 0\nend\n";

const PINNED_TREE: &str =
    "xen-pv-trace 1\nframes 16\ndomain 16\nvcpu 0\nown 0 0 6\ncell 1 0 1 0x2003\ncell 2 0 1 0x3003\ncell 3 0 1 0x4003\ncell 4 0 512 0x5001\nop 0 ext 3 1 0\nturn 0 1\nend\n";

const TREE_REPORT: &str =
    "vcpu 0 domain 0 base - user - old - -\nop 1 ok done 1 value 0x0\ndomain 0 live pages 6\nframe 0 owner 0 refs 1 alloc type none count 0 flags - at 0 m2p -\nframe 1 owner 0 refs 2 alloc type L4 count 1 flags pv at 0 m2p -\nframe 2 owner 0 refs 2 alloc type L3 count 1 flags v at 0 m2p -\nframe 3 owner 0 refs 2 alloc type L2 count 1 flags v at 0 m2p -\nframe 4 owner 0 refs 2 alloc type L1 count 1 flags v at 0 m2p -\nframe 5 owner 0 refs 513 alloc type none count 0 flags - at 0 m2p -\nfree 10\nend\n";

// vCPU 0 writes into frame 0, and pins it as a page table. The pin waits until vCPU 1 has flushed or stopped, so vCPU 0 cannot come to its end before
// vCPU 1 had a turn.
const WAITS: &str =
    "xen-pv-trace 1\nframes 1\ndomain 1\nvcpu 0\nvcpu 0\nown 0 0 1\nop 0 mmu 0x7ff0 0x0 0\nop 0 ext 0 0 0\nend\n";

const WAITS_REPORT: &str =
    "vcpu 0 domain 0 base - user - old - -\nop 1 ok done 1 value 0x0\nop 2 ok done 1 value 0x0\nvcpu 1 domain 0 base - user - old - -\ndomain 0 live pages 1\nframe 0 owner 0 refs 2 alloc type L1 count 1 flags pv at 0 m2p -\nfree 0\nend\n";

// Gates for all vCPUs, each of which says yes at every so many asks, or never where that is 0.
fn gates<R: Abort + AllocGlobal>(rt: &R, every: u32) -> Vec<Box<dyn Preempt + Send>> {
    let mut gates: Vec<Box<dyn Preempt + Send>> = Vec::new(rt.alloc());
    for _ in 0..16 {
        let mut gate = Paced::new();
        gate.pace(every);
        let gate = Box::new(rt.alloc(), gate).expect(rt, "memory");
        gates.push(gate).expect(rt, "memory");
    }
    gates
}

fn replays_to<R: Threads + Wait + Sync + Abort + AllocGlobal>(rt: &R, trace: &str, text: &str) {
    let gates = gates(rt, 0);
    assert!(rt; gates.len() >= 16);
    match read_trace(rt.alloc(), trace.as_bytes()) {
        Err(_) => panic!(rt; "a trace"),
        Ok(trace) => {
            let report = replay(rt, rt.alloc(), trace, gates).expect(rt, "memory");
            assert!(rt; report.as_slice() == text.as_bytes());
        }
    }
}

#[test]
fn the_first_update_and_a_pinned_tree_are_reported_as_in_turns(rt: HostRuntime) {
    replays_to(&rt, FIRST_UPDATE, FIRST_REPORT);
    replays_to(&rt, PINNED_TREE, TREE_REPORT);
}

#[test]
fn a_vcpu_that_waits_for_another_comes_to_its_end(rt: HostRuntime) {
    replays_to(&rt, WAITS, WAITS_REPORT);
}

// The machine and the closing words of a trace, run in threads, with gates of that pace.
fn words_behind<R: Threads + Wait + Sync + Abort + AllocGlobal>(
    rt: &R,
    text: &str,
    every: u32,
) -> (Layout, SparseWords) {
    let trace = read_trace(rt.alloc(), text.as_bytes())
        .ok()
        .expect(rt, "a trace");
    let layout = trace.layout.copy();
    let gates = gates(rt, every);
    assert!(rt; gates.len() >= 16);
    let (words, _) = replay_words(rt, rt.alloc(), trace, gates).expect(rt, "memory");
    (layout, words)
}

// Those of a random trace. Their paces differ.
fn random_words<R: Threads + Wait + Sync + Abort + AllocGlobal>(
    rt: &R,
    number: u32,
) -> (Layout, SparseWords) {
    let text = random_trace(rt.alloc(), u64::from(number)).expect(rt, "memory");
    words_behind(rt, &text, number % 4)
}

#[test]
fn closing_counts_of_random_replays_are_those_of_the_words(rt: HostRuntime) {
    let mut with_tables: u32 = 0;
    for number in 0..200 {
        let (layout, words) = random_words(&rt, number);
        let agree = counts_agree(rt.alloc(), &layout, &words).expect(&rt, "memory");
        assert!(rt; agree);
        if live_tables(&layout, &words) > 2 {
            with_tables = with_tables.saturating_add(1);
        }
    }
    assert!(rt; with_tables >= 100);
}

#[test]
fn one_reference_too_many_is_seen(rt: HostRuntime) {
    let (layout, mut words) = random_words(&rt, 0);
    assert!(rt; layout.frames == 16);
    let place = layout.refs_place(15);
    assert!(rt; place < words.len());
    let word = words.get(place);
    assert!(rt; word != u64::MAX);
    words.set(place, word + 1);
    let agree = counts_agree(rt.alloc(), &layout, &words).expect(&rt, "memory");
    assert!(rt; !agree);
}

// Whether domain 1 is dead.
fn is_dead(layout: &Layout, words: &SparseWords) -> bool {
    if layout.domains() < 2 {
        return false;
    }
    let place = layout.life_place(1);
    place < words.len() && words.get(place) == 255
}

#[test]
fn random_replays_leave_the_destroyed_domain_dead_with_right_counts(rt: HostRuntime) {
    for number in 0..40 {
        let text = random_destruction(rt.alloc(), u64::from(number)).expect(&rt, "memory");
        let (layout, words) = words_behind(&rt, &text, number % 4);
        let agree = counts_agree(rt.alloc(), &layout, &words).expect(&rt, "memory");
        assert!(rt; agree && is_dead(&layout, &words));
    }
}
