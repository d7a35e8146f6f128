//! Operations that are lists, and the gates that pause them.
ghost use Rattle.std.specs.Prelude.{◌≡◌, false};
ghost use Rattle.xp_preempt.specs.Gates.{next_ask};

use crate::runs::{answers, words_of};
use std::alloc::Global;
use std::process::Abort;
use std::sync::Arc;
use std::sync::atomic::{AtomicU64, Ordering};
use xp_io::{HonestSink, HonestSource};
use xp_machine::{Status, run_serial};
use xp_preempt::Preempt;

// A write of ordinary memory, a machine-to-physical word, and an address that is none.
const LIST: &str =
    "xen-pv-trace 1\nframes 16\ndomain 16\nvcpu 0\nown 0 0 8\nop 0 mmu 0x7ff0 0x5008 0x77 0x6001 0x9 0x4 0x1\n";

const AFTER_ONE: &str =
    "vcpu 0 domain 0 base - user - old - -\npending 1\ndomain 0 live pages 8\nframe 0 owner 0 refs 1 alloc type none count 0 flags - at 0 m2p -\nframe 1 owner 0 refs 1 alloc type none count 0 flags - at 0 m2p -\nframe 2 owner 0 refs 1 alloc type none count 0 flags - at 0 m2p -\nframe 3 owner 0 refs 1 alloc type none count 0 flags - at 0 m2p -\nframe 4 owner 0 refs 1 alloc type none count 0 flags - at 0 m2p -\nframe 5 owner 0 refs 1 alloc type wr count 0 flags - at 0 m2p -\nframe 6 owner 0 refs 1 alloc type none count 0 flags - at 0 m2p -\nframe 7 owner 0 refs 1 alloc type none count 0 flags - at 0 m2p -\nfree 8\nend\n";

const AFTER_ALL: &str =
    "vcpu 0 domain 0 base - user - old - -\nop 1 refused 17 done 2 BadRange\ndomain 0 live pages 8\nframe 0 owner 0 refs 1 alloc type none count 0 flags - at 0 m2p -\nframe 1 owner 0 refs 1 alloc type none count 0 flags - at 0 m2p -\nframe 2 owner 0 refs 1 alloc type none count 0 flags - at 0 m2p -\nframe 3 owner 0 refs 1 alloc type none count 0 flags - at 0 m2p -\nframe 4 owner 0 refs 1 alloc type none count 0 flags - at 0 m2p -\nframe 5 owner 0 refs 1 alloc type wr count 0 flags - at 0 m2p -\nframe 6 owner 0 refs 1 alloc type none count 0 flags - at 0 m2p 0x9\nframe 7 owner 0 refs 1 alloc type none count 0 flags - at 0 m2p -\nfree 8\nend\n";

// The list with these turns.
fn list_in(rt: &(impl Abort + AllocGlobal), turns: &str) -> String {
    format!(in rt.alloc(); "{LIST}{turns}end\n").expect(rt, "memory")
}

#[test]
fn an_update_list_is_paused_after_each_pair(rt: HostRuntime) {
    for (command, turns, report) in [
        ("turns --preempt 1", "turn 0 1\n", AFTER_ONE),
        ("turns --preempt 1", "turn 0 3\n", AFTER_ALL),
        ("turns --preempt=1", "turn 0 1\n", AFTER_ONE),
    ] {
        let trace = list_in(&rt, turns);
        answers(&rt, command, trace.as_str(), 7, Status::Done, report);
    }
}

#[test]
fn an_update_list_without_pauses_ends_in_one_turn(rt: HostRuntime) {
    let trace = list_in(&rt, "turn 0 1\n");
    for command in ["turns", "turns --preempt 0", "turns --preempt 1000000"] {
        answers(&rt, command, trace.as_str(), 7, Status::Done, AFTER_ALL);
    }
}

// 513 pairs are one too many.
fn long_list(rt: &(impl Abort + AllocGlobal)) -> String {
    let mut long = String::new(rt.alloc());
    for _ in 0..513 {
        long.push_str(" 0x1 7").expect(rt, "memory");
    }
    format!(in rt.alloc();
        "xen-pv-trace 1\nframes 1\ndomain 1\nvcpu 0\nown 0 0 1\nop 0 mmu 0x7ff0{long}\nturn 0 2\nend\n"
    ).expect(rt, "memory")
}

#[test]
fn a_long_list_is_refused_and_an_empty_one_is_done(rt: HostRuntime) {
    let long = long_list(&rt);
    answers(
        &rt,
        "turns",
        long.as_str(),
        usize::MAX,
        Status::Done,
        "vcpu 0 domain 0 base - user - old - -\nop 1 refused 21 done 0 BatchLong\ndomain 0 live pages 1\nframe 0 owner 0 refs 1 alloc type none count 0 flags - at 0 m2p -\nfree 0\nend\n",
    );
    answers(
        &rt,
        "turns",
        "xen-pv-trace 1\nframes 1\ndomain 1\nvcpu 0\nown 0 0 1\nop 0 mmu 0x7ff0\nturn 0 1\nend\n",
        usize::MAX,
        Status::Done,
        "vcpu 0 domain 0 base - user - old - -\nop 1 ok done 0 value 0x0\ndomain 0 live pages 1\nframe 0 owner 0 refs 1 alloc type none count 0 flags - at 0 m2p -\nfree 0\nend\n",
    );
}

// A gate that says when it is let go.
struct Counted {
    gone: Arc<AtomicU64, Global>,
    asks: u64,
}

impl Drop for Counted {
    fn drop(self) {
        self.gone.fetch_add(1, Ordering::SeqCst);
        let Counted { gone: _, asks: _ } = self;
    }
}

impl Preempt for Counted {
    ghost policy = { λ g. record { paces = false; asks = g.asks; yes = 0; says = λ _. false } };

    fn pace(&mut self, every: u32) {}

    fn due(&mut self) -> bool
        ensures never { result ≡ false }
        ensures asked { self.new.asks ≡ next_ask self.old.asks }
    {
        if self.asks != u64::MAX {
            self.asks += 1;
        }
        false
    }

    fn yes(&self) -> u64 {
        0
    }
}

fn gates_gone(rt: &(impl Abort + AllocGlobal), command: &str, trace: &str) -> u64 {
    let words = words_of(rt, command);
    let bytes = trace.as_bytes().to_vec(rt.alloc()).expect(rt, "memory");
    let gone = Arc::new(rt.alloc(), AtomicU64::new(0)).expect(rt, "memory");
    let mut gates: Vec<Box<dyn Preempt + Send>> = Vec::new(rt.alloc());
    for _ in 0..16 {
        let gate = Counted {
            gone: Arc::try_clone(&gone).expect(rt, "memory"),
            asks: 0,
        };
        gates
            .push(Box::new(rt.alloc(), gate).expect(rt, "memory"))
            .expect(rt, "memory");
    }
    assert!(rt; gates.len() >= 16);
    let mut source = HonestSource::new(bytes);
    let mut sink = HonestSink::new();
    run_serial(rt.alloc(), &words, &mut source, &mut sink, gates);
    gone.load(Ordering::SeqCst)
}

#[test]
fn each_gate_is_let_go_in_a_run(rt: HostRuntime) {
    let two = list_in(&rt, "turn 0 2\n");
    for (command, trace) in [("turns", two.as_str()), ("turns", ""), ("", "")] {
        assert!(rt; gates_gone(&rt, command, trace) == 16, "{command} {trace}");
    }
}
