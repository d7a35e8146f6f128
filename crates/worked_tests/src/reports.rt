//! Reports and summaries (report_text).
ghost use Rattle.std.specs.Prelude.{◌≡◌, length};

use crate::machines::{least_machine, three_domains};
use crate::sparse::put;
use report_text::{report, summary};
use sparse_words::SparseWords;
use std::process::Abort;
use xp_words::{Log, LogLine, PageType, Refusal, Reply};

// Three words that stand one behind the other, and the place of the first of them. In a machine of three domains and two vCPUs the words of domains begin
// at 1, those of the vCPUs at 7 and 45, and those of frame N at 83 + 515 * N.
type Row = (u32, u64, u64, u64);

// Pages and lives of domains, bases and old words of vCPUs.
const DOMAINS: [Row; 4] = [
    (1, 4, 0, 3),
    (4, 16, 0, 255),
    (8, 6, 1, 0x2_0000_0000),
    (45, 12, 0, 0),
];

// Each form of a reference word and of a kind word.
const FRAMES: [Row; 12] = [
    (83, 0x8000_0000_8000_0001, 0x001c_0000_0000_0001, 7),
    (598, 0x8000_0001_8000_0003, 0x0012_8030_0000_0000, u64::MAX),
    (1113, 0x8000_0001_0000_0002, 0, 0),
    (1628, 0x8000_0000_0000_0000, 0x0041_4000_0000_0009, u64::MAX),
    (2143, 5, 0x0010_4000_0000_0005, 3),
    (2658, 0x8000_0000_8000_0005, 0x0074_0000_0000_0004, 0xbeef),
    (3173, 0x8000_0000_8000_0001, 0x0050_4000_0000_004d, 6),
    (3688, 0x8000_0000_8000_0004, 0x0025_0000_0000_0003, 7),
    (4203, 0x8000_0000_8000_0003, 0x003d_0000_0000_0002, 8),
    (4718, 0x8000_0000_8000_0002, 0x0052_c000_0000_0004, 9),
    (5233, u64::MAX, 0x0060_0000_0000_0000, u64::MAX),
    (5748, 0, 0, u64::MAX),
];

// Each refusal.
const REFUSED: [Refusal; 24] = [
    Refusal::NoFrame {
        frame: 4503599627370495,
    },
    Refusal::WrongOwner {
        frame: 12,
        found: 9,
    },
    Refusal::WrongOwner {
        frame: 6,
        found: 0x8000_0000_0000_0001,
    },
    Refusal::OtherType {
        frame: 11,
        want: PageType::Writable,
        found: 0x0015_0000_0000_0002,
    },
    Refusal::Reserved {
        frame: 4,
        index: 7,
        entry: 0x5081,
    },
    Refusal::CountFull {
        frame: 6,
        found: 0x8000_0000_8000_0004,
    },
    Refusal::AlreadyPinned {
        found: 0x001c_0000_0000_0001,
    },
    Refusal::NotPinned { found: 0 },
    Refusal::NotPinned {
        found: 0x0012_8030_0000_0000,
    },
    Refusal::Slot { index: 271 },
    Refusal::NotMapped { level: 5, entry: 0 },
    Refusal::ReadOnly { entry: 0x8005 },
    Refusal::NonCanonical,
    Refusal::NoPrivilege {
        caller: 2,
        domain: 1,
    },
    Refusal::NoDomain,
    Refusal::Dying {
        domain: 1,
        found: 255,
    },
    Refusal::DomainFull { found: 9 },
    Refusal::NoFree,
    Refusal::BadRange,
    Refusal::BadDescriptor {
        frame: 14,
        index: 0,
        word: 0x8c00_0000_0000,
    },
    Refusal::BadCommand,
    Refusal::Clock { found: 68719476734 },
    Refusal::BatchLong,
    Refusal::InUse {
        frame: 7,
        found: 0x8000_0002_0000_0000,
    },
];

// Three elements are done.
const DONE: Reply = Reply {
    done: 3,
    value: 0xfeed,
    refusal: None,
};

// Two are, and the third is refused.
const BAD: Reply = Reply {
    done: 2,
    value: 0,
    refusal: Some(Refusal::BadRange),
};

// Each form of a line of a log.
const ANSWERED: [LogLine; 6] = [
    LogLine::Given {
        op: 1,
        call: 2,
        extent: 0,
        frame: 8,
    },
    LogLine::Answer {
        op: 1,
        call: 2,
        reply: DONE,
    },
    LogLine::Given {
        op: 2,
        call: 0,
        extent: 10,
        frame: 65535,
    },
    LogLine::Answer {
        op: 2,
        call: 0,
        reply: DONE,
    },
    LogLine::Left {
        op: 3,
        frame: 15,
        found: 0x8000_0001_0000_0001,
    },
    LogLine::Answer {
        op: 4,
        call: 7,
        reply: BAD,
    },
];

const REPORT: &str = "vcpu 0 domain 0 base - user 5 old 0 0x200000000
op 1 refused 1 done 0 NoFrame frame=4503599627370495
op 2 refused 2 done 0 WrongOwner frame=12 found=free
op 3 refused 2 done 0 WrongOwner frame=6 found=d0,1
op 4 refused 3 done 0 OtherType frame=11 want=wr found=L1,2,vl
op 5 refused 4 done 0 Reserved frame=4 index=7 entry=0x5081
op 6 refused 5 done 0 CountFull frame=6 found=d0,4,a
op 7 refused 6 done 0 AlreadyPinned found=L1,1,pv
op 8 refused 7 done 0 NotPinned found=none,0,-
op 9 refused 7 done 0 NotPinned found=L1,1,hk
op 10 refused 8 done 0 Slot index=271
op 11 refused 9 done 0 NotMapped level=5 entry=0x0
op 12 refused 10 done 0 ReadOnly entry=0x8005
op 13 refused 11 done 0 NonCanonical
op 14 refused 12 done 0 NoPrivilege caller=2 domain=1
op 15 refused 13 done 0 NoDomain
op 16 refused 14 done 0 Dying domain=1 found=255
op 17 refused 15 done 0 DomainFull found=9
op 18 refused 16 done 0 NoFree
op 19 refused 17 done 0 BadRange
op 20 refused 18 done 0 BadDescriptor frame=14 index=0 word=0x8c0000000000
op 21 refused 19 done 0 BadCommand
op 22 refused 20 done 0 Clock found=68719476734
op 23 refused 21 done 0 BatchLong
op 24 refused 22 done 0 InUse frame=7 found=d2,0
vcpu 1 domain 1 base 11 user - old - -
op 1 call 2 given 0 8
op 1 call 2 ok done 3 value 0xfeed
op 2 given 10 65535
op 2 ok done 3 value 0xfeed
op 3 left 15 refs d1,1
op 4 call 7 refused 17 done 2 BadRange
pending 3
domain 0 live pages 4
domain 1 dying pages 3
domain 2 dead pages 0
frame 0 owner 0 refs 1 alloc type L1 count 1 flags pv at 0 m2p 0x7
frame 1 owner 1 refs 3 alloc type L1 count 1 flags hk at 3 m2p -
frame 2 owner 1 refs 2 - type none count 0 flags - at 0 m2p 0x0
frame 3 owner 0 refs 0 - type L4 count 1 flags lu at 0 m2p -
frame 5 owner 0 refs 5 alloc type wr count 4 flags v at 0 m2p 0xbeef
frame 6 owner 0 refs 1 alloc type desc count 0 flags u at 0 m2p 0x6
frame 7 owner 0 refs 4 alloc type L2 count 3 flags vl at 0 m2p 0x7
frame 8 owner 0 refs 3 alloc type L3 count 2 flags pvl at 0 m2p 0x8
frame 9 owner 0 refs 2 alloc type desc count 1 flags hku at 0 m2p 0x9
frame 10 refs 0xffffffffffffffff kind 0x60000000000000 m2p -
free 2
end
";

fn put_rows(words: &mut SparseWords, rows: &[Row])
    ensures { length words.new ≡ length words.old }
{
    for (place, first, second, third) in rows {
        put(words, *place, *first);
        put(words, place.wrapping_add(1), *second);
        put(words, place.wrapping_add(2), *third);
    }
}

fn answer(op: u32, call: u32, done: u32, refusal: Option<Refusal>) -> LogLine {
    let reply = Reply {
        done,
        value: 0,
        refusal,
    };
    LogLine::Answer { op, call, reply }
}

// The log with each refusal, of operation 1 and those behind it.
fn refused(rt: &(impl Abort + AllocGlobal)) -> Log {
    let mut log = Log::new(Vec::new(rt.alloc()));
    let mut op = 0u32;
    for refusal in REFUSED.iter() {
        op = op.wrapping_add(1);
        log.push(answer(op, 0, 0, Some(*refusal)))
            .expect(rt, "memory");
    }
    log
}

// The log with each form of a line.
fn answered(rt: &(impl Abort + AllocGlobal)) -> Log {
    Log::new(ANSWERED.to_vec(rt.alloc()).expect(rt, "memory"))
}

// The report of a machine of three domains.
fn reported(rt: &(impl Abort + AllocGlobal)) -> Vec<u8> {
    let layout = three_domains(12);
    let mut words = SparseWords::new(rt.alloc(), &layout).expect(rt, "memory");
    put_rows(&mut words, &DOMAINS);
    put_rows(&mut words, &FRAMES);
    let logs = [refused(rt), answered(rt)];
    report(rt.alloc(), &layout, &words, &logs, &[0, 3]).expect(rt, "memory")
}

#[test]
fn prints_each_refusal_and_each_form_of_a_frame(rt: HostRuntime) {
    assert!(rt; reported(&rt).as_slice() == REPORT.as_bytes());
}

// One vCPU sets the machine-to-physical word of its one frame, whose words begin at 41.
const UPDATED: [Row; 2] = [(1, 1, 0, 0), (41, 0x8000_0000_8000_0001, 0, 7)];

const UPDATE: &str = "vcpu 0 domain 0 base - user - old - -
op 1 ok done 1 value 0x0
domain 0 live pages 1
frame 0 owner 0 refs 1 alloc type none count 0 flags - at 0 m2p 0x7
free 0
end
";

// The log with the answer of that one operation.
fn updated(rt: &(impl Abort + AllocGlobal)) -> Log {
    let mut log = Log::new(Vec::new(rt.alloc()));
    log.push(answer(1, 0, 1, None)).expect(rt, "memory");
    log
}

#[test]
fn prints_the_first_update(rt: HostRuntime) {
    let layout = least_machine();
    let mut words = SparseWords::new(rt.alloc(), &layout).expect(&rt, "memory");
    put_rows(&mut words, &UPDATED);
    let text = report(rt.alloc(), &layout, &words, &[updated(&rt)], &[0]).expect(&rt, "memory");
    assert!(rt; text.as_slice() == UPDATE.as_bytes());
}

// Answers in the logs of two vCPUs: operation, call, and whether it is refused.
const FIRST: [(u32, u32, bool); 6] = [
    (1, 0, false),
    (2, 0, true),
    (3, 1, false),
    (3, 2, true),
    (3, 0, true),
    (4, 0, false),
];

const SECOND: [(u32, u32, bool); 1] = [(1, 0, false)];

fn refusal_if(refused: bool) -> Option<Refusal> {
    if refused { Some(Refusal::NoFree) } else { None }
}

// A frame is given before each answer.
fn log_of(rt: &(impl Abort + AllocGlobal), answers: &[(u32, u32, bool)]) -> Log {
    let mut log = Log::new(Vec::new(rt.alloc()));
    for (op, call, refused) in answers {
        let given = LogLine::Given {
            op: *op,
            call: *call,
            extent: 0,
            frame: 1,
        };
        log.push(given).expect(rt, "memory");
        log.push(answer(*op, *call, 1, refusal_if(*refused)))
            .expect(rt, "memory");
    }
    log
}

// The operations of a run with these answers, and its summary.
const SUMMARIES: [(u32, &str); 3] = [
    (5, "generated 5 ok 3 refused 2 pending 0\nfree 2\n"),
    (6, "generated 6 ok 3 refused 2 pending 1\nfree 2\n"),
    (
        4294967295,
        "generated 4294967295 ok 3 refused 2 pending 4294967290\nfree 2\n",
    ),
];

// The summary of so many operations.
fn summed(rt: &(impl Abort + AllocGlobal), operations: u32) -> Vec<u8> {
    let layout = three_domains(12);
    let mut words = SparseWords::new(rt.alloc(), &layout).expect(rt, "memory");
    put_rows(&mut words, &FRAMES);
    let logs = [log_of(rt, &FIRST), log_of(rt, &SECOND)];
    summary(rt.alloc(), operations, &layout, &words, &logs).expect(rt, "memory")
}

#[test]
fn sums_up_two_logs(rt: HostRuntime) {
    for (operations, want) in SUMMARIES.iter() {
        let text = summed(&rt, *operations);
        assert!(rt; text.as_slice() == want.as_bytes(), "of {operations}");
    }
}
