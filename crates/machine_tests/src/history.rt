//! The traces of examples/history, each with the report that it must have. `python3 bench/history.py` writes the text from those files: of each
//! the words of its command, its name, the trace without its comments, and the report.
use crate::runs::reported;

static STORIES: &str = "turns
# address-of-an-update-is-not-the-hypervisors
xen-pv-trace 1
frames 16
domain 16
vcpu 0
own 0 0 8
cell 1 0 1 0x2003
cell 2 0 1 0x3003
cell 3 0 1 0x4003
op 0 ext 5 1 0
op 0 va 0xffff800000000000 0x6003 0
op 0 va 0xffff87fffffff000 0x6003 0
op 0 va 0xffff880000000000 0x6003 0
op 0 va 0x800000000000 0x6003 0
op 0 mmu 0x7ff0 0x1800 0x2003
op 0 va 0x0 0x6003 1
turn 0 8
end
reports
vcpu 0 domain 0 base 1 user - old - -
op 1 ok done 1 value 0x0
op 2 refused 8 done 0 Slot index=256
op 3 refused 8 done 0 Slot index=271
op 4 refused 9 done 0 NotMapped level=4 entry=0x0
op 5 refused 11 done 0 NonCanonical
op 6 refused 8 done 0 Slot index=256
op 7 ok done 1 value 0x0
domain 0 live pages 8
frame 0 owner 0 refs 1 alloc type none count 0 flags - at 0 m2p -
frame 1 owner 0 refs 2 alloc type L4 count 1 flags v at 0 m2p -
frame 2 owner 0 refs 2 alloc type L3 count 1 flags v at 0 m2p -
frame 3 owner 0 refs 2 alloc type L2 count 1 flags v at 0 m2p -
frame 4 owner 0 refs 2 alloc type L1 count 1 flags v at 0 m2p -
frame 5 owner 0 refs 1 alloc type none count 0 flags - at 0 m2p -
frame 6 owner 0 refs 2 alloc type wr count 1 flags v at 0 m2p -
frame 7 owner 0 refs 1 alloc type none count 0 flags - at 0 m2p -
free 8
end
---
turns
# descriptor-is-fixed-before-it-is-taken
xen-pv-trace 1
frames 16
domain 16
vcpu 0
own 0 0 8
cell 5 1 1 0xcf92000000ffff
cell 6 1 1 0xec0000080000
cell 1 0 1 0x2003
cell 2 0 1 0x3003
cell 3 0 1 0x4003
cell 4 0 1 0x5001
op 0 gdt 512 5
op 0 gdt 512 6
op 0 desc 0x5010 0xcf9a000000ffff
op 0 desc 0x5018 0xec0000080000
op 0 ext 5 1 0
op 0 read k 0x8
op 0 read k 0x10
turn 0 9
end
reports
vcpu 0 domain 0 base 1 user - old - -
op 1 ok done 1 value 0x0
op 2 refused 18 done 0 BadDescriptor frame=6 index=1 word=0xec0000080000
op 3 ok done 1 value 0x0
op 4 refused 18 done 0 BadDescriptor frame=5 index=3 word=0xec0000080000
op 5 ok done 1 value 0x0
op 6 ok done 1 value 0xcff2000000ffff
op 7 ok done 1 value 0xcffa000000ffff
domain 0 live pages 8
frame 0 owner 0 refs 1 alloc type none count 0 flags - at 0 m2p -
frame 1 owner 0 refs 2 alloc type L4 count 1 flags v at 0 m2p -
frame 2 owner 0 refs 2 alloc type L3 count 1 flags v at 0 m2p -
frame 3 owner 0 refs 2 alloc type L2 count 1 flags v at 0 m2p -
frame 4 owner 0 refs 2 alloc type L1 count 1 flags v at 0 m2p -
frame 5 owner 0 refs 3 alloc type desc count 1 flags v at 0 m2p -
frame 6 owner 0 refs 1 alloc type desc count 0 flags - at 0 m2p -
frame 7 owner 0 refs 1 alloc type none count 0 flags - at 0 m2p -
free 8
end
---
turns
# each-entry-of-a-table-that-maps-itself-counts-once
xen-pv-trace 1
frames 16
domain 16
vcpu 0
own 0 0 8
cell 5 0 512 0x5001
op 0 ext 0 5 0
op 0 ext 4 5 0
op 0 mmu 0x7ff0 0x5000 7
turn 0 4
end
reports
vcpu 0 domain 0 base - user - old - -
op 1 ok done 1 value 0x0
op 2 ok done 1 value 0x0
op 3 ok done 1 value 0x0
domain 0 live pages 8
frame 0 owner 0 refs 1 alloc type none count 0 flags - at 0 m2p -
frame 1 owner 0 refs 1 alloc type none count 0 flags - at 0 m2p -
frame 2 owner 0 refs 1 alloc type none count 0 flags - at 0 m2p -
frame 3 owner 0 refs 1 alloc type none count 0 flags - at 0 m2p -
frame 4 owner 0 refs 1 alloc type none count 0 flags - at 0 m2p -
frame 5 owner 0 refs 1 alloc type wr count 0 flags - at 0 m2p -
frame 6 owner 0 refs 1 alloc type none count 0 flags - at 0 m2p -
frame 7 owner 0 refs 1 alloc type none count 0 flags - at 0 m2p -
free 8
end
---
turns
# fast-path-asks-of-a-new-word-what-its-type-asks
xen-pv-trace 1
frames 16
domain 16
vcpu 0
own 0 0 8
cell 4 0 1 0x5003
op 0 ext 1 4 0
op 0 mmu 0x7ff0 0x4000 0x5083
op 0 mmu 0x7ff0 0x5000 0x5001
op 0 mmu 0x7ff0 0x5000 0x5003
op 0 mmu 0x7ff0 0x4000 0x5001
turn 0 6
end
reports
vcpu 0 domain 0 base - user - old - -
op 1 ok done 1 value 0x0
op 2 refused 4 done 0 Reserved frame=4 index=0 entry=0x5083
op 3 ok done 1 value 0x0
op 4 refused 3 done 0 OtherType frame=5 want=wr found=L1,2,vl
op 5 ok done 1 value 0x0
domain 0 live pages 8
frame 0 owner 0 refs 1 alloc type none count 0 flags - at 0 m2p -
frame 1 owner 0 refs 1 alloc type none count 0 flags - at 0 m2p -
frame 2 owner 0 refs 1 alloc type none count 0 flags - at 0 m2p -
frame 3 owner 0 refs 1 alloc type none count 0 flags - at 0 m2p -
frame 4 owner 0 refs 2 alloc type L2 count 1 flags pv at 0 m2p -
frame 5 owner 0 refs 3 alloc type L1 count 1 flags v at 0 m2p -
frame 6 owner 0 refs 1 alloc type none count 0 flags - at 0 m2p -
frame 7 owner 0 refs 1 alloc type none count 0 flags - at 0 m2p -
free 8
end
---
turns
# flush-of-a-page-drops-it-for-both-bases
xen-pv-trace 1
frames 32
domain 32
vcpu 0
own 0 0 16
cell 1 0 1 0x2007
cell 2 0 1 0x3007
cell 3 0 1 0x4007
cell 4 0 1 0xa067
cell 5 0 1 0x6007
cell 6 0 1 0x7007
cell 7 0 1 0x8007
cell 8 0 1 0xa067
op 0 ext 5 1 0
op 0 ext 15 5 0
op 0 write k 0x0 1
op 0 write u 0x0 2
op 0 mmu 0x7ff0 0x4000 0 0x8000 0
op 0 read u 0x0
op 0 ext 7 0 0
op 0 read k 0x0
op 0 read u 0x0
turn 0 10
end
reports
vcpu 0 domain 0 base 1 user 5 old - -
op 1 ok done 1 value 0x0
op 2 ok done 1 value 0x0
op 3 ok done 1 value 0x0
op 4 ok done 1 value 0x0
op 5 ok done 2 value 0x0
op 6 ok done 1 value 0x2
op 7 ok done 1 value 0x0
op 8 refused 9 done 0 NotMapped level=1 entry=0x0
op 9 refused 9 done 0 NotMapped level=1 entry=0x0
domain 0 live pages 16
frame 0 owner 0 refs 1 alloc type none count 0 flags - at 0 m2p -
frame 1 owner 0 refs 2 alloc type L4 count 1 flags v at 0 m2p -
frame 2 owner 0 refs 2 alloc type L3 count 1 flags v at 0 m2p -
frame 3 owner 0 refs 2 alloc type L2 count 1 flags v at 0 m2p -
frame 4 owner 0 refs 2 alloc type L1 count 1 flags v at 0 m2p -
frame 5 owner 0 refs 2 alloc type L4 count 1 flags v at 0 m2p -
frame 6 owner 0 refs 2 alloc type L3 count 1 flags v at 0 m2p -
frame 7 owner 0 refs 2 alloc type L2 count 1 flags v at 0 m2p -
frame 8 owner 0 refs 2 alloc type L1 count 1 flags v at 0 m2p -
frame 9 owner 0 refs 1 alloc type none count 0 flags - at 0 m2p -
frame 10 owner 0 refs 1 alloc type wr count 0 flags - at 0 m2p -
frame 11 owner 0 refs 1 alloc type none count 0 flags - at 0 m2p -
frame 12 owner 0 refs 1 alloc type none count 0 flags - at 0 m2p -
frame 13 owner 0 refs 1 alloc type none count 0 flags - at 0 m2p -
frame 14 owner 0 refs 1 alloc type none count 0 flags - at 0 m2p -
frame 15 owner 0 refs 1 alloc type none count 0 flags - at 0 m2p -
free 16
end
---
turns
# frame-changes-its-owner-when-nothing-refers-to-it
xen-pv-trace 1
frames 6
domain 8
domain 8
vcpu 0
vcpu 1
own 0 0 6
cell 1 0 1 0x2003
cell 2 0 1 0x3003
cell 3 0 1 0x4003
cell 4 0 1 0x5063
op 0 ext 5 1 0
op 0 write k 0x0 0x1234
op 0 mem 1 0 5
op 1 mem 0 0 1
op 0 mmu 0x7ff0 0x4000 0
op 1 mem 0 0 1
op 0 read k 0x0
turn 0 3
turn 1 1
turn 0 1
turn 1 1
turn 0 1
turn 1 1
end
reports
vcpu 0 domain 0 base 1 user - old - -
op 1 ok done 1 value 0x0
op 2 ok done 1 value 0x0
op 3 ok done 1 value 0x0
op 4 ok done 1 value 0x0
op 5 refused 9 done 0 NotMapped level=1 entry=0x0
vcpu 1 domain 1 base - user - old - -
op 1 refused 16 done 0 NoFree
op 2 given 0 5
op 2 ok done 1 value 0x0
domain 0 live pages 5
domain 1 live pages 1
frame 0 owner 0 refs 1 alloc type none count 0 flags - at 0 m2p -
frame 1 owner 0 refs 2 alloc type L4 count 1 flags v at 0 m2p -
frame 2 owner 0 refs 2 alloc type L3 count 1 flags v at 0 m2p -
frame 3 owner 0 refs 2 alloc type L2 count 1 flags v at 0 m2p -
frame 4 owner 0 refs 2 alloc type L1 count 1 flags v at 0 m2p -
frame 5 owner 1 refs 1 alloc type wr count 0 flags - at 0 m2p -
free 0
end
---
turns --preempt 3
# interrupted-validation-goes-on-where-it-stood
xen-pv-trace 1
frames 16
domain 16
vcpu 0
vcpu 0
own 0 0 8
cell 4 0 1 0x5003
cell 5 0 512 0x6001
op 0 ext 1 4 0
op 1 ext 0 5 0
op 1 ext 4 5 0
op 0 ext 4 4 0
turn 0 20
turn 1 150
turn 0 150
turn 1 40
turn 0 1000
turn 1 400
end
reports
vcpu 0 domain 0 base - user - old - -
op 1 ok done 1 value 0x0
op 2 ok done 1 value 0x0
vcpu 1 domain 0 base - user - old - -
op 1 ok done 1 value 0x0
op 2 ok done 1 value 0x0
domain 0 live pages 8
frame 0 owner 0 refs 1 alloc type none count 0 flags - at 0 m2p -
frame 1 owner 0 refs 1 alloc type none count 0 flags - at 0 m2p -
frame 2 owner 0 refs 1 alloc type none count 0 flags - at 0 m2p -
frame 3 owner 0 refs 1 alloc type none count 0 flags - at 0 m2p -
frame 4 owner 0 refs 1 alloc type L2 count 0 flags - at 0 m2p -
frame 5 owner 0 refs 1 alloc type L1 count 0 flags - at 0 m2p -
frame 6 owner 0 refs 1 alloc type none count 0 flags - at 0 m2p -
frame 7 owner 0 refs 1 alloc type none count 0 flags - at 0 m2p -
free 8
end
---
turns
# old-translation-delays-the-new-type
xen-pv-trace 1
frames 16
domain 16
vcpu 0
vcpu 0
own 0 0 10
cell 1 0 1 0x2003
cell 2 0 1 0x3003
cell 3 0 1 0x4003
cell 4 0 1 0x6063
op 1 ext 5 1 0
op 1 write k 0x0 0x50
op 0 mmu 0x7ff0 0x4000 0
op 0 ext 0 6 0
op 1 write k 0x0 0x7003
turn 1 2
turn 0 3
turn 1 1
turn 0 1
end
reports
vcpu 0 domain 0 base - user - old - -
op 1 ok done 1 value 0x0
op 2 ok done 1 value 0x0
vcpu 1 domain 0 base 1 user - old - -
op 1 ok done 1 value 0x0
op 2 ok done 1 value 0x0
op 3 refused 9 done 0 NotMapped level=1 entry=0x0
domain 0 live pages 10
frame 0 owner 0 refs 1 alloc type none count 0 flags - at 0 m2p -
frame 1 owner 0 refs 2 alloc type L4 count 1 flags v at 0 m2p -
frame 2 owner 0 refs 2 alloc type L3 count 1 flags v at 0 m2p -
frame 3 owner 0 refs 2 alloc type L2 count 1 flags v at 0 m2p -
frame 4 owner 0 refs 2 alloc type L1 count 1 flags v at 0 m2p -
frame 5 owner 0 refs 1 alloc type none count 0 flags - at 0 m2p -
frame 6 owner 0 refs 2 alloc type L1 count 1 flags pv at 0 m2p -
frame 7 owner 0 refs 1 alloc type none count 0 flags - at 0 m2p -
frame 8 owner 0 refs 1 alloc type none count 0 flags - at 0 m2p -
frame 9 owner 0 refs 1 alloc type none count 0 flags - at 0 m2p -
free 6
end
---
turns --preempt 4
# one-vcpu-validates-while-another-wants-the-frame
xen-pv-trace 1
frames 16
domain 16
vcpu 0
vcpu 0
own 0 0 8
cell 5 0 512 0x6001
op 0 ext 0 5 0
op 1 ext 0 7 0
op 1 mmu 0x7ff0 0x7000 0x5003
op 1 mmu 0x7ff0 0x7000 0x5001
turn 0 2
turn 1 200
turn 0 200
turn 1 200
end
reports
vcpu 0 domain 0 base - user - old - -
op 1 ok done 1 value 0x0
vcpu 1 domain 0 base - user - old - -
op 1 ok done 1 value 0x0
op 2 refused 3 done 0 OtherType frame=5 want=wr found=L1,1,hk
op 3 ok done 1 value 0x0
domain 0 live pages 8
frame 0 owner 0 refs 1 alloc type none count 0 flags - at 0 m2p -
frame 1 owner 0 refs 1 alloc type none count 0 flags - at 0 m2p -
frame 2 owner 0 refs 1 alloc type none count 0 flags - at 0 m2p -
frame 3 owner 0 refs 1 alloc type none count 0 flags - at 0 m2p -
frame 4 owner 0 refs 1 alloc type none count 0 flags - at 0 m2p -
frame 5 owner 0 refs 3 alloc type L1 count 1 flags pv at 0 m2p -
frame 6 owner 0 refs 513 alloc type none count 0 flags - at 0 m2p -
frame 7 owner 0 refs 2 alloc type L1 count 1 flags pv at 0 m2p -
free 8
end
---
turns
# refused-validation-leaves-the-frame-free-for-another-type
xen-pv-trace 1
frames 16
domain 16
vcpu 0
own 0 0 8
cell 5 0 100 0x6003
cell 5 100 1 0x5003
op 0 ext 0 5 0
op 0 mmu 0x7ff0 0x5000 7
op 0 ext 0 6 0
turn 0 4
end
reports
vcpu 0 domain 0 base - user - old - -
op 1 refused 3 done 0 OtherType frame=5 want=wr found=L1,1,l
op 2 ok done 1 value 0x0
op 3 ok done 1 value 0x0
domain 0 live pages 8
frame 0 owner 0 refs 1 alloc type none count 0 flags - at 0 m2p -
frame 1 owner 0 refs 1 alloc type none count 0 flags - at 0 m2p -
frame 2 owner 0 refs 1 alloc type none count 0 flags - at 0 m2p -
frame 3 owner 0 refs 1 alloc type none count 0 flags - at 0 m2p -
frame 4 owner 0 refs 1 alloc type none count 0 flags - at 0 m2p -
frame 5 owner 0 refs 1 alloc type wr count 0 flags - at 0 m2p -
frame 6 owner 0 refs 2 alloc type L1 count 1 flags pv at 0 m2p -
frame 7 owner 0 refs 1 alloc type none count 0 flags - at 0 m2p -
free 8
end
---
turns --preempt 100
# release-of-a-tree-is-paused
xen-pv-trace 1
frames 16
domain 16
vcpu 0
own 0 0 8
cell 1 0 1 0x2003
cell 2 0 1 0x3003
cell 3 0 1 0x4003
cell 4 0 512 0x5001
op 0 ext 3 1 0
op 0 ext 4 1 0
turn 0 38
end
reports
vcpu 0 domain 0 base - user - old 1 -
op 1 ok done 1 value 0x0
op 2 ok done 1 value 0x0
domain 0 live pages 8
frame 0 owner 0 refs 1 alloc type none count 0 flags - at 0 m2p -
frame 1 owner 0 refs 2 alloc type L4 count 1 flags h at 1 m2p -
frame 2 owner 0 refs 2 alloc type L3 count 1 flags h at 1 m2p -
frame 3 owner 0 refs 2 alloc type L2 count 1 flags h at 1 m2p -
frame 4 owner 0 refs 2 alloc type L1 count 1 flags h at 357 m2p -
frame 5 owner 0 refs 358 alloc type none count 0 flags - at 0 m2p -
frame 6 owner 0 refs 1 alloc type none count 0 flags - at 0 m2p -
frame 7 owner 0 refs 1 alloc type none count 0 flags - at 0 m2p -
free 8
end
---
turns
# top-table-cannot-name-itself
xen-pv-trace 1
frames 16
domain 16
vcpu 0
own 0 0 8
op 0 ext 3 1 0
op 0 mmu 0x7ff0 0x1000 0x1001
op 0 mmu 0x7ff0 0x1000 0x1003
op 0 ext 2 2 0
op 0 mmu 0x7ff0 0x2000 0x1003
turn 0 6
end
reports
vcpu 0 domain 0 base - user - old - -
op 1 ok done 1 value 0x0
op 2 refused 3 done 0 OtherType frame=1 want=L3 found=L4,2,pvl
op 3 refused 3 done 0 OtherType frame=1 want=L3 found=L4,2,pvl
op 4 ok done 1 value 0x0
op 5 refused 3 done 0 OtherType frame=1 want=L2 found=L4,1,pv
domain 0 live pages 8
frame 0 owner 0 refs 1 alloc type none count 0 flags - at 0 m2p -
frame 1 owner 0 refs 2 alloc type L4 count 1 flags pv at 0 m2p -
frame 2 owner 0 refs 2 alloc type L3 count 1 flags pv at 0 m2p -
frame 3 owner 0 refs 1 alloc type none count 0 flags - at 0 m2p -
frame 4 owner 0 refs 1 alloc type none count 0 flags - at 0 m2p -
frame 5 owner 0 refs 1 alloc type none count 0 flags - at 0 m2p -
frame 6 owner 0 refs 1 alloc type none count 0 flags - at 0 m2p -
frame 7 owner 0 refs 1 alloc type none count 0 flags - at 0 m2p -
free 8
end
";

#[test]
fn each_mistake_of_history_has_the_report_that_it_must_have(rt: HostRuntime) {
    for story in STORIES.split("---\n") {
        let (report, wanted) = reported(&rt, story);
        assert!(rt; report.as_slice() == wanted.as_bytes(), "{story}");
    }
}
