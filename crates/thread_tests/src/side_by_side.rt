//! A run whose vCPUs come to their ends only side by side.
ghost use Rattle.std.specs.Prelude.{◌≡◌, true, false};
ghost use Rattle.xp_preempt.specs.Gates.{next_ask};

use std::alloc::Global;
use std::process::Abort;
use std::sync::atomic::{AtomicBool, Ordering};
use std::sync::{Arc, Wait};
use std::thread::Threads;
use xp_io::{HonestSink, MemorySource};
use xp_machine::{Status, run};
use xp_preempt::{Never, Preempt};

// How often a gate looks for the other vCPU before it gives up.
const LOOKS: u32 = 100_000_000;

// A gate that says no once the other vCPU's gate was asked, too. So two vCPUs with such gates come to their ends only side by side.
#[derive(Drop)]
struct Meeting {
    own: Arc<AtomicBool, Global>,
    other: Arc<AtomicBool, Global>,
    missed: Arc<AtomicBool, Global>,
    asks: u64,
}

impl Preempt for Meeting {
    ghost policy = { λ g. record { paces = false; asks = g.asks; yes = 0; says = λ _. false } };

    fn pace(&mut self, every: u32) {}

    fn due(&mut self) -> bool
        ensures never { result ≡ false }
        ensures asked { self.new.asks ≡ next_ask self.old.asks }
    {
        if self.asks != u64::MAX {
            self.asks += 1;
        }
        self.own.store(true, Ordering::SeqCst);
        for _ in 0..LOOKS {
            if self.other.load(Ordering::SeqCst) {
                return false;
            }
        }
        self.missed.store(true, Ordering::SeqCst);
        false
    }

    fn yes(&self) -> u64 {
        0
    }
}

// Runs a trace in threads, where the first two vCPUs have these gates, and the others' gates never say yes.
fn replay_by<R: Threads + Wait + Sync + Abort + AllocGlobal>(
    rt: &R,
    trace: &str,
    one: Meeting,
    two: Meeting,
) {
    let mut gates: Vec<Box<dyn Preempt + Send>> = Vec::new(rt.alloc());
    let one = Box::new(rt.alloc(), one).expect(rt, "memory");
    gates.push(one).expect(rt, "memory");
    let two = Box::new(rt.alloc(), two).expect(rt, "memory");
    gates.push(two).expect(rt, "memory");
    for _ in 2..16 {
        let gate = Box::new(rt.alloc(), Never::new()).expect(rt, "memory");
        gates.push(gate).expect(rt, "memory");
    }
    let mut word = String::new(rt.alloc());
    word.push_str("replay").expect(rt, "memory");
    let words = vec![in rt.alloc(); word].expect(rt, "memory");
    let mut bytes = Vec::new(rt.alloc());
    bytes
        .extend_from_slice(trace.as_bytes())
        .expect(rt, "memory");
    let mut source = MemorySource::new(bytes, Vec::new(rt.alloc()));
    let mut sink = HonestSink::new();
    assert!(rt; gates.len() >= 16);
    let answer = run(rt, rt.alloc(), &words, &mut source, &mut sink, gates);
    assert!(rt; answer == Status::Done);
}

#[test]
fn two_vcpus_run_side_by_side(rt: HostRuntime) {
    let first = Arc::new(rt.alloc(), AtomicBool::new(false)).expect(&rt, "memory");
    let second = Arc::new(rt.alloc(), AtomicBool::new(false)).expect(&rt, "memory");
    let missed = Arc::new(rt.alloc(), AtomicBool::new(false)).expect(&rt, "memory");
    let one = Meeting {
        own: Arc::try_clone(&first).expect(&rt, "memory"),
        other: Arc::try_clone(&second).expect(&rt, "memory"),
        missed: Arc::try_clone(&missed).expect(&rt, "memory"),
        asks: 0,
    };
    let two = Meeting {
        own: second,
        other: first,
        missed: Arc::try_clone(&missed).expect(&rt, "memory"),
        asks: 0,
    };
    replay_by(
        &rt,
        "xen-pv-trace 1\nframes 16\ndomain 16\nvcpu 0\nvcpu 0\nown 0 0 8\nop 0 mmu 0x7ff0 0x1 7 0x1 7\nop 1 mmu 0x7ff0 0x1001 7 0x1001 7\nend\n",
        one,
        two,
    );
    assert!(rt; !missed.load(Ordering::SeqCst));
}
