//! Words, places and lists (xp_words): examples from the format's description.
use crate::machines::small_layout;
use std::process::Abort;
use xp_words::{
    Call, CallList, ContextWord, Entry, ExtList, ExtOp, KindWord, LdtBase, Log, LogLine, Numbers,
    Op, PageType, Pair, Pairs, RefWord, Reply, Script, fix,
};

#[test]
#[tactic(auto, unfolding(xp_words::specs::RefWords::IsRef))]
fn references_are_spelled_and_read(rt: HostRuntime) {
    let one = RefWord::Owned {
        owner: 0,
        allocated: true,
        count: 1,
    };
    let three = RefWord::Owned {
        owner: 1,
        allocated: true,
        count: 3,
    };
    assert!(rt; [one.write(), three.write()] == [0x8000000080000001, 0x8000000180000003]);
    assert!(rt; RefWord::read(0x8000000180000003) == Some(three));
    assert!(rt; RefWord::read(0x8000000080000000).is_none());
}

const PINNED: KindWord = KindWord {
    kind: PageType::L1,
    pinned: true,
    validated: true,
    partial: false,
    locked: false,
    kept: false,
    unflushed: false,
    progress: 0,
    number: 1,
};

const PARTIAL: KindWord = KindWord {
    kind: PageType::L1,
    pinned: false,
    validated: false,
    partial: true,
    locked: false,
    kept: true,
    unflushed: false,
    progress: 3,
    number: 0,
};

#[test]
#[tactic(auto, unfolding(xp_words::specs::KindWords::has_form))]
fn kinds_are_spelled_and_read(rt: HostRuntime) {
    assert!(rt; [PINNED.write(), PARTIAL.write()] == [0x001c000000000001, 0x0012803000000000]);
    assert!(rt; KindWord::read(0x001c000000000001) == Some(PINNED));
    assert!(rt; KindWord::read(0x0060000000000000).is_none());
}

#[test]
#[tactic(auto, unfolding(xp_words::specs::ContextWords::IsContext))]
fn bases_of_vcpus_are_spelled_and_read(rt: HostRuntime) {
    let base = ContextWord { frame: Some(0) };
    let ldt = LdtBase {
        page: 3,
        entries: 8192,
    };
    assert!(rt; [base.write(), ldt.write()] == [1, 0xe000]);
    assert!(rt; ContextWord::read(0) == Some(ContextWord { frame: None }));
    assert!(rt; LdtBase::read(0x2001).is_none());
}

#[test]
fn entries_say_what_they_name(rt: HostRuntime) {
    let entry = Entry { word: 0x40003 };
    assert!(rt; (entry.present(), entry.writable(), entry.frame()) == (true, true, 64));
}

#[test]
fn a_code_segment_gets_level_3_and_a_task_segment_is_refused(rt: HostRuntime) {
    assert!(rt; fix(0x00af9a000000ffff) == Some(0x00affa000000ffff));
    assert!(rt; fix(0x0000890000000000).is_none());
}

#[test]
fn words_of_a_small_machine_stand_in_their_places(rt: HostRuntime) {
    let layout = small_layout().copy();
    let places = [
        layout.pages_place(1),
        layout.life_place(1),
        layout.vcpu_place(0, 37),
        layout.refs_place(0),
        layout.kind_place(64),
        layout.m2p_place(64),
        layout.cell_place(64, 511),
        layout.map_place(1),
        layout.priv_place(1),
        layout.words(),
    ];
    assert!(rt; places == [3, 4, 42, 43, 33004, 33005, 33517, 33519, 33521, 33522]);
}

const PAIR: Pair = Pair { ptr: 4096, val: 3 };

const PIN: ExtOp = ExtOp {
    command: 0,
    first: 32,
    second: 0,
};

fn updates() -> Call {
    Call::Mmu {
        foreign: 0x7ff0,
        pairs: Pairs::one(PAIR),
    }
}

fn commands(rt: &(impl Abort + AllocGlobal)) -> Call {
    let mut list = ExtList::new(Vec::new(rt.alloc()));
    list.push(PIN).expect(rt, "memory");
    Call::Ext { list }
}

// A list of updates and one of commands.
fn two_calls(rt: &(impl Abort + AllocGlobal)) -> CallList {
    let mut calls = CallList::new(Vec::new(rt.alloc()));
    calls.push(updates()).expect(rt, "memory");
    calls.push(commands(rt)).expect(rt, "memory");
    calls
}

fn script_of(rt: &(impl Abort + AllocGlobal), calls: CallList) -> Script {
    let mut script = Script::new(Vec::new(rt.alloc()));
    script.push(Op::Multi { calls }).expect(rt, "memory");
    script
}

#[test]
fn lists_of_operations_take_what_is_pushed(rt: HostRuntime) {
    assert!(rt; CallList::new(Vec::new(rt.alloc())).is_empty());
    let calls = two_calls(&rt);
    assert!(rt; calls.len() == 2);
    assert!(rt; script_of(&rt, calls).as_slice().len() == 1);
}

#[test]
fn a_list_of_one_pair_has_that_pair(rt: HostRuntime) {
    assert!(rt; Pairs::one(PAIR).as_slice() == [PAIR].as_slice());
}

#[test]
fn a_list_of_numbers_takes_what_is_pushed(rt: HostRuntime) {
    let mut frames = Numbers::new(Vec::new(rt.alloc()));
    frames.push(7).expect(&rt, "memory");
    frames.push(9).expect(&rt, "memory");
    assert!(rt; frames.into_items().as_slice() == [7, 9].as_slice());
}

const ANSWER: LogLine = LogLine::Answer {
    op: 1,
    call: 0,
    reply: Reply {
        done: 1,
        value: 0,
        refusal: None,
    },
};

#[test]
fn a_log_takes_what_is_pushed(rt: HostRuntime) {
    let mut log = Log::new(Vec::new(rt.alloc()));
    log.push(ANSWER).expect(&rt, "memory");
    assert!(rt; log.len() == 1);
}
