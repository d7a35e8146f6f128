//! A run with a line for each of its steps behind the report.
use crate::runs::answers;
use xp_machine::Status;

// Entry 0 maps frame 1 writable, and entry 1 maps frame 2 read-only. The pin is paused behind each, and two turns do not finish it.
const PIN: &str =
    "xen-pv-trace 1\nframes 3\ndomain 3\nvcpu 0\nown 0 0 3\ncell 0 0 1 0x1003\ncell 0 1 1 0x2001\nop 0 ext 0 0 0\nturn 0 2\nend\n";

// docs/STEPS.md explains each part of it.
const TOLD: &str = r#"vcpu 0 domain 0 base - user - old - -
pending 1
domain 0 live pages 3
frame 0 owner 0 refs 2 alloc type L1 count 1 flags hk at 2 m2p -
frame 1 owner 0 refs 2 alloc type wr count 1 flags v at 0 m2p -
frame 2 owner 0 refs 2 alloc type none count 0 flags - at 0 m2p -
free 0
end
step 0 look vcpu 0 asked load found 0x0 turn
step 0 look vcpu 0 flushed load found 0x1
step 0 look vcpu 0 run load found 0x0
step 0 look life 0 load found 0x0
step 0 look vcpu 0 old0 load found 0x0
step 0 look vcpu 0 old1 load found 0x0
step 0 look vcpu 0 old0 load found 0x0
step 0 look vcpu 0 old1 load found 0x0
step 0 look refs 0 load found 0x8000000080000001
step 0 ref refs 0 cas 0x8000000080000001 to 0x8000000080000002 found 0x8000000080000001
step 0 look kind 0 load found 0x0
step 0 ref refs 0 add -0x1 found 0x8000000080000002
step 0 look refs 0 load found 0x8000000080000001
step 0 ref refs 0 cas 0x8000000080000001 to 0x8000000080000002 found 0x8000000080000001
step 0 look kind 0 load found 0x0
step 0 kind kind 0 cas 0x0 to 0x11000000000000 found 0x0
step 0 look cell 0 0 load found 0x1003
step 0 look refs 1 load found 0x8000000080000001
step 0 ref refs 1 cas 0x8000000080000001 to 0x8000000080000002 found 0x8000000080000001
step 0 look kind 1 load found 0x0
step 0 kind kind 1 cas 0x0 to 0x71000000000000 found 0x0
step 0 kind kind 1 store 0x74000000000001 found 0x71000000000000
step 0 look clock load found 0x1 record 0 1
step 0 kind kind 0 store 0x12801000000000 found 0x11000000000000
step 0 look vcpu 0 asked load found 0x0 turn
step 0 look vcpu 0 flushed load found 0x1
step 0 look vcpu 0 run load found 0x0
step 0 look life 0 load found 0x0
step 0 look vcpu 0 old0 load found 0x0
step 0 look vcpu 0 old1 load found 0x0
step 0 look vcpu 0 old0 load found 0x0
step 0 look vcpu 0 old1 load found 0x0
step 0 look refs 0 load found 0x8000000080000002
step 0 ref refs 0 cas 0x8000000080000002 to 0x8000000080000003 found 0x8000000080000002
step 0 look kind 0 load found 0x12801000000000
step 0 ref refs 0 add -0x1 found 0x8000000080000003
step 0 look refs 0 load found 0x8000000080000002
step 0 ref refs 0 cas 0x8000000080000002 to 0x8000000080000003 found 0x8000000080000002
step 0 look kind 0 load found 0x12801000000000
step 0 kind kind 0 cas 0x12801000000000 to 0x11000000000000 found 0x12801000000000
step 0 ref refs 0 add -0x1 found 0x8000000080000003
step 0 look cell 0 0 load found 0x1003
step 0 look kind 1 load found 0x74000000000001
step 0 look cell 0 1 load found 0x2001
step 0 look refs 2 load found 0x8000000080000001
step 0 ref refs 2 cas 0x8000000080000001 to 0x8000000080000002 found 0x8000000080000001
step 0 look clock load found 0x1 record 0 2
step 0 kind kind 0 store 0x12802000000000 found 0x11000000000000
step 0 run vcpu 0 run store 0x1 found 0x0
"#;

#[test]
fn each_step_of_a_paused_pin_is_told(rt: HostRuntime) {
    answers(
        &rt,
        "turns --preempt 1 --steps",
        PIN,
        usize::MAX,
        Status::Done,
        TOLD,
    );
}
