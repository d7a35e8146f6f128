//! Pins, unpins, entry updates, walks and flushes from the trace to the report: worked examples, in one turn and paused. An example is
//! the words of a command, a trace that says in a comment what it shows, and lines of the report; lines of dashes stand between examples.
use crate::runs::{has_lines, reported};
use std::process::Abort;

static EXAMPLES: &str = "turns
# An empty frame is pinned as an L1 table; a frame that is not pinned cannot be unpinned.
xen-pv-trace 1
frames 16
domain 16
vcpu 0
own 0 0 8
op 0 ext 0 5 0
op 0 ext 4 6 0
turn 0 2
end
reports
op 1 ok done 1 value 0x0
op 2 refused 7 done 0 NotPinned found=none,0,-
frame 5 owner 0 refs 2 alloc type L1 count 1 flags pv at 0 m2p -
---
turns
# A whole tree of four tables is validated by one pin; 512 read-only entries hold 512 references.
xen-pv-trace 1
frames 16
domain 16
vcpu 0
own 0 0 8
cell 1 0 1 0x2003
cell 2 0 1 0x3003
cell 3 0 1 0x4003
cell 4 0 512 0x5001
op 0 ext 3 1 0
turn 0 1
end
reports
op 1 ok done 1 value 0x0
frame 1 owner 0 refs 2 alloc type L4 count 1 flags pv at 0 m2p -
frame 2 owner 0 refs 2 alloc type L3 count 1 flags v at 0 m2p -
frame 3 owner 0 refs 2 alloc type L2 count 1 flags v at 0 m2p -
frame 4 owner 0 refs 2 alloc type L1 count 1 flags v at 0 m2p -
frame 5 owner 0 refs 513 alloc type none count 0 flags - at 0 m2p -
---
turns
# The refused table is partial, and the vCPU's first old word holds its reference.
xen-pv-trace 1
frames 16
domain 16
vcpu 0
own 0 0 8
cell 5 0 1 0x5003
op 0 ext 0 5 0
turn 0 1
end
reports
op 1 refused 3 done 0 OtherType frame=5 want=wr found=L1,1,l
vcpu 0 domain 0 base - user - old 5 -
frame 5 owner 0 refs 2 alloc type L1 count 1 flags h at 0 m2p -
---
turns
# The next turn settles the old word, and the table is dead.
xen-pv-trace 1
frames 16
domain 16
vcpu 0
own 0 0 8
cell 5 0 1 0x5003
op 0 ext 0 5 0
turn 0 2
end
reports
op 1 refused 3 done 0 OtherType frame=5 want=wr found=L1,1,l
vcpu 0 domain 0 base - user - old - -
frame 5 owner 0 refs 1 alloc type L1 count 0 flags - at 0 m2p -
---
turns
# A linear page table is refused by type: the frame is an L4 table in work.
xen-pv-trace 1
frames 16
domain 16
vcpu 0
own 0 0 8
cell 1 0 1 0x1003
op 0 ext 3 1 0
turn 0 2
end
reports
op 1 refused 3 done 0 OtherType frame=1 want=L3 found=L4,1,l
---
turns
# A page-size bit in an entry that is not present is let through; in a present one it is refused.
xen-pv-trace 1
frames 16
domain 16
vcpu 0
own 0 0 8
cell 3 7 1 0x80
cell 4 7 1 0x5081
op 0 ext 1 3 0
op 0 ext 1 4 0
turn 0 3
end
reports
op 1 ok done 1 value 0x0
op 2 refused 4 done 0 Reserved frame=4 index=7 entry=0x5081
frame 3 owner 0 refs 2 alloc type L2 count 1 flags pv at 0 m2p -
frame 4 owner 0 refs 1 alloc type L2 count 0 flags - at 0 m2p -
frame 5 owner 0 refs 1 alloc type none count 0 flags - at 0 m2p -
---
turns --preempt 1
# Three turns recorded three entries; the kept mark holds the table's reference.
xen-pv-trace 1
frames 16
domain 16
vcpu 0
own 0 0 8
cell 5 0 512 0x6001
op 0 ext 0 5 0
turn 0 3
end
reports
pending 1
frame 5 owner 0 refs 2 alloc type L1 count 1 flags hk at 3 m2p -
frame 6 owner 0 refs 4 alloc type none count 0 flags - at 0 m2p -
---
turns --preempt 256
# One vCPU's unpin pauses part-way; another vCPU's pin of the same table goes on from there.
xen-pv-trace 1
frames 16
domain 16
domain 16
priv 0 1
vcpu 0
vcpu 1
vcpu 1
own 0 0 4
own 1 4 8
cell 5 0 512 0x6001
op 1 ext 0 5 0
op 1 ext 4 5 0
op 2 ext 0 5 0
turn 1 3
turn 2 1
turn 1 1
end
reports
op 1 ok done 1 value 0x0
op 2 ok done 1 value 0x0
op 1 ok done 1 value 0x0
frame 5 owner 1 refs 2 alloc type L1 count 1 flags pv at 0 m2p -
frame 6 owner 1 refs 513 alloc type none count 0 flags - at 0 m2p -
---
turns
# With a count limit of 4 the fourth reference from the table does not fit beside the owner's own.
xen-pv-trace 1
frames 16
limit 4
domain 16
vcpu 0
own 0 0 8
cell 5 0 4 0x6001
op 0 ext 0 5 0
turn 0 2
end
reports
op 1 refused 5 done 0 CountFull frame=6 found=d0,4,a
frame 5 owner 0 refs 1 alloc type L1 count 0 flags - at 0 m2p -
frame 6 owner 0 refs 1 alloc type none count 0 flags - at 0 m2p -
---
turns
# A read-only mapping of the table under validation takes a plain reference alone.
xen-pv-trace 1
frames 16
domain 16
vcpu 0
own 0 0 8
cell 1 0 1 0x2003
cell 2 0 1 0x3003
cell 3 0 1 0x4003
cell 4 0 1 0x1001
op 0 ext 3 1 0
turn 0 1
end
reports
op 1 ok done 1 value 0x0
frame 1 owner 0 refs 3 alloc type L4 count 1 flags pv at 0 m2p -
---
turns
# The refusal inside the child leaves two unfinished tables, and the next turn settles both.
xen-pv-trace 1
frames 16
domain 16
vcpu 0
own 0 0 8
cell 1 0 1 0x2003
cell 2 0 1 0x1003
op 0 ext 3 1 0
turn 0 2
end
reports
op 1 refused 3 done 0 OtherType frame=1 want=L2 found=L4,1,l
frame 1 owner 0 refs 1 alloc type L4 count 0 flags - at 0 m2p -
frame 2 owner 0 refs 1 alloc type L3 count 0 flags - at 0 m2p -
---
turns
# One L1 table maps another writable that the same L2 table has just made live; afterwards nothing is held.
xen-pv-trace 1
frames 16
domain 16
vcpu 0
own 0 0 8
cell 3 0 1 0x4003
cell 3 1 1 0x5003
cell 5 0 1 0x4003
op 0 ext 1 3 0
turn 0 2
end
reports
op 1 refused 3 done 0 OtherType frame=4 want=wr found=L1,1,v
frame 3 owner 0 refs 1 alloc type L2 count 0 flags - at 0 m2p -
frame 4 owner 0 refs 1 alloc type L1 count 0 flags - at 0 m2p -
frame 5 owner 0 refs 1 alloc type L1 count 0 flags - at 0 m2p -
---
turns
# A domain with privilege sets a word of another's frame by naming its owner; one without is refused.
xen-pv-trace 1
frames 16
domain 16
domain 16
priv 0 1
vcpu 0
vcpu 1
vcpu 1
own 0 0 4
own 1 4 8
op 0 mmu 0x7ff0 0xc001 1
op 0 mmu 0x7ff0 0x4001 1
op 0 mmu 0x1 0x4001 1
op 1 mmu 0x0 0x1 1
turn 0 3
turn 1 1
end
reports
op 1 refused 2 done 0 WrongOwner frame=12 found=free
op 2 refused 2 done 0 WrongOwner frame=4 found=d1,1,a
op 3 ok done 1 value 0x0
op 1 refused 12 done 0 NoPrivilege caller=1 domain=0
---
turns
# Slots 255 and 272 of a live L4 table take an entry; 256 and 271 are Xen's.
xen-pv-trace 1
frames 16
domain 16
vcpu 0
own 0 0 8
op 0 ext 3 1 0
op 0 mmu 0x7ff0 0x17f8 0x2003
op 0 mmu 0x7ff0 0x1800 0x2003
op 0 mmu 0x7ff0 0x1878 0x2003
op 0 mmu 0x7ff0 0x1880 0x2003
turn 0 5
end
reports
op 2 ok done 1 value 0x0
op 3 refused 8 done 0 Slot index=256
op 4 refused 8 done 0 Slot index=271
op 5 ok done 1 value 0x0
frame 2 owner 0 refs 3 alloc type L3 count 2 flags v at 0 m2p -
---
turns
# An entry update that keeps the accessed and dirty bits gives the old frame back and takes the new one.
xen-pv-trace 1
frames 16
domain 16
vcpu 0
own 0 0 8
cell 5 0 1 0x6061
op 0 ext 0 5 0
op 0 mmu 0x7ff0 0x5002 0x7001
turn 0 2
end
reports
op 2 ok done 1 value 0x0
frame 6 owner 0 refs 1 alloc type none count 0 flags - at 0 m2p -
frame 7 owner 0 refs 2 alloc type none count 0 flags - at 0 m2p -
---
turns
# So does one that replaces them.
xen-pv-trace 1
frames 16
domain 16
vcpu 0
own 0 0 8
cell 5 0 1 0x6061
op 0 ext 0 5 0
op 0 mmu 0x7ff0 0x5000 0x7001
turn 0 2
end
reports
op 2 ok done 1 value 0x0
frame 6 owner 0 refs 1 alloc type none count 0 flags - at 0 m2p -
frame 7 owner 0 refs 2 alloc type none count 0 flags - at 0 m2p -
---
turns
# A domain with privilege maps another's frame writable, by an entry update.
xen-pv-trace 1
frames 16
domain 16
domain 16
priv 0 1
vcpu 0
vcpu 1
vcpu 1
own 0 0 4
own 1 4 8
op 0 ext 0 1 0
op 0 mmu 0x1 0x1000 0x5003
op 0 ext 4 1 0
op 0 ext 0 1 0
turn 0 2
end
reports
frame 5 owner 1 refs 2 alloc type wr count 1 flags v at 0 m2p -
---
turns
# Pinned anew, the table with the foreign entry is refused: a whole table asks frames of its own owner.
xen-pv-trace 1
frames 16
domain 16
domain 16
priv 0 1
vcpu 0
vcpu 1
vcpu 1
own 0 0 4
own 1 4 8
op 0 ext 0 1 0
op 0 mmu 0x1 0x1000 0x5003
op 0 ext 4 1 0
op 0 ext 0 1 0
turn 0 4
end
reports
op 3 ok done 1 value 0x0
op 4 refused 2 done 0 WrongOwner frame=5 found=d1,1,a
---
turns
# A system domain's number is that of no domain.
xen-pv-trace 1
frames 16
domain 16
vcpu 0
own 0 0 8
op 0 mmu 0x7ff1 0x1 1
turn 0 1
end
reports
op 1 refused 13 done 0 NoDomain
---
turns
# A pin of a frame that a guest can still write through its cache awaits that vCPU's flush.
xen-pv-trace 1
frames 16
domain 16
domain 16
priv 0 1
vcpu 0
vcpu 1
vcpu 1
own 0 0 4
own 1 4 8
cell 4 0 1 0x5003
cell 5 0 1 0x6003
cell 6 0 1 0x7003
cell 7 0 1 0x8003
op 1 ext 5 4 0
op 1 write k 0x0 0x100
op 1 write k 0x0 0x100
op 2 mmu 0x7ff0 0x7000 0x0
op 2 ext 0 8 0
turn 0 1
turn 1 2
turn 2 2
end
reports
pending 1
frame 8 owner 1 refs 2 alloc type L1 count 1 flags hku at 0 m2p -
---
turns
# The vCPU that was asked flushes at its next turn, and finds the page gone; then the pin ends.
xen-pv-trace 1
frames 16
domain 16
domain 16
priv 0 1
vcpu 0
vcpu 1
vcpu 1
own 0 0 4
own 1 4 8
cell 4 0 1 0x5003
cell 5 0 1 0x6003
cell 6 0 1 0x7003
cell 7 0 1 0x8003
op 1 ext 5 4 0
op 1 write k 0x0 0x100
op 1 write k 0x0 0x100
op 2 mmu 0x7ff0 0x7000 0x0
op 2 ext 0 8 0
turn 0 1
turn 1 2
turn 2 2
turn 1 1
turn 2 1
end
reports
op 2 ok done 1 value 0x0
op 3 refused 9 done 0 NotMapped level=1 entry=0x0
frame 8 owner 1 refs 2 alloc type L1 count 1 flags pv at 0 m2p -
---
turns
# Accesses at an address that is not canonical, one of the hypervisor, one without a base, and one that is no multiple of 8.
xen-pv-trace 1
frames 16
domain 16
vcpu 0
own 0 0 8
op 0 read k 0x800000000000
op 0 read k 0xffff800000000000
op 0 read k 0x0
op 0 write k 0x4 1
turn 0 4
end
reports
op 1 refused 11 done 0 NonCanonical
op 2 refused 8 done 0 Slot index=256
op 3 refused 9 done 0 NotMapped level=5 entry=0x0
op 4 refused 17 done 0 BadRange
---
turns
# At the clock's last value no flush can be made.
xen-pv-trace 1
frames 16
clock 68719476734
domain 16
vcpu 0
own 0 0 8
op 0 ext 6 0 0
turn 0 1
end
reports
op 1 refused 20 done 0 Clock found=68719476734
---
turns
# A guest that maps its own L1 table read-only cannot write it.
xen-pv-trace 1
frames 64
domain 8
domain 40
priv 0 1
vcpu 0
vcpu 1
own 0 0 8
own 1 8 40
cell 8 0 1 0x9007
cell 9 0 1 0xa007
cell 10 0 1 0xb007
cell 11 0 1 0x8005
cell 11 1 1 0x9005
cell 11 2 1 0xa005
cell 11 3 1 0xb005
cell 11 4 1 0xc007
cell 11 5 1 0xd007
cell 11 6 1 0xe007
op 1 ext 5 8 0
op 1 write k 0x3000 0x1
turn 1 2
end
reports
op 2 refused 10 done 0 ReadOnly entry=0xb005
---
turns
# A flush of all vCPUs of the domain waits for the other one.
xen-pv-trace 1
frames 16
domain 16
domain 16
priv 0 1
vcpu 0
vcpu 1
vcpu 1
own 0 0 4
own 1 4 8
op 1 ext 10 0 0
turn 1 1
end
reports
pending 1
---
turns
# It is answered once that one had a turn.
xen-pv-trace 1
frames 16
domain 16
domain 16
priv 0 1
vcpu 0
vcpu 1
vcpu 1
own 0 0 4
own 1 4 8
op 1 ext 10 0 0
turn 1 1
turn 2 1
turn 1 1
end
reports
op 1 ok done 1 value 0x0
---
turns
# A writer that flushed after the frame was given up delays no pin.
xen-pv-trace 1
frames 16
domain 16
domain 16
priv 0 1
vcpu 0
vcpu 1
vcpu 1
own 0 0 4
own 1 4 8
cell 4 0 1 0x5003
cell 5 0 1 0x6003
cell 6 0 1 0x7003
cell 7 0 1 0x8003
op 1 ext 5 4 0
op 1 write k 0x0 0x100
op 1 ext 6 0 0
op 2 mmu 0x7ff0 0x7000 0x0
op 2 ext 0 8 0
turn 0 1
turn 1 2
turn 2 1
turn 1 1
turn 2 1
end
reports
op 2 ok done 1 value 0x0
frame 8 owner 1 refs 2 alloc type L1 count 1 flags pv at 0 m2p -
---
turns
# Walks set accessed and dirty bits, and an update that keeps them keeps them.
xen-pv-trace 1
frames 16
domain 16
vcpu 0
own 0 0 8
cell 1 0 1 0x2003
cell 2 0 1 0x3003
cell 3 0 1 0x4003
cell 4 0 1 0x5003
cell 4 1 1 0x4001
op 0 ext 5 1 0
op 0 write k 0x0 0x77
op 0 read k 0x1000
op 0 read k 0x1008
op 0 mmu 0x7ff0 0x4002 0x6003
op 0 read k 0x1000
turn 0 6
end
reports
op 3 ok done 1 value 0x5063
op 4 ok done 1 value 0x4021
op 6 ok done 1 value 0x6063
---
turns
# A vCPU of a domain that can never have mapped the frame is not waited for.
xen-pv-trace 1
frames 16
domain 16
domain 16
vcpu 0
vcpu 1
vcpu 1
own 0 0 4
own 1 4 8
cell 4 0 1 0x5003
cell 5 0 1 0x6003
cell 6 0 1 0x7003
cell 7 0 1 0x8003
op 1 ext 5 4 0
op 1 write k 0x0 0x100
op 1 write k 0x0 0x100
op 2 mmu 0x7ff0 0x7000 0x0
op 2 ext 0 8 0
turn 1 2
turn 2 2
turn 1 1
turn 2 1
end
reports
op 2 ok done 1 value 0x0
---
turns
# With a privilege it may have mapped the frame, and is waited for.
xen-pv-trace 1
frames 16
domain 16
domain 16
priv 0 1
vcpu 0
vcpu 1
vcpu 1
own 0 0 4
own 1 4 8
cell 4 0 1 0x5003
cell 5 0 1 0x6003
cell 6 0 1 0x7003
cell 7 0 1 0x8003
op 1 ext 5 4 0
op 1 write k 0x0 0x100
op 1 write k 0x0 0x100
op 2 mmu 0x7ff0 0x7000 0x0
op 2 ext 0 8 0
turn 1 2
turn 2 2
turn 1 1
turn 2 1
end
reports
pending 1
";

// Runs whose reports depend on turns or pauses: a premise of «preemption is invisible» fails in each.
static SEEN: &str = "turns
# An entry is set while its vCPU keeps an older translation, by which it reads on; behind its flush a walk finds the new entry.
xen-pv-trace 1
frames 8
domain 8
vcpu 0
own 0 0 8
cell 1 0 1 0x2003
cell 2 0 1 0x3003
cell 3 0 1 0x4003
cell 4 0 1 0x5003
cell 5 0 1 0x55
cell 6 0 1 0x66
op 0 ext 5 1 0
op 0 read k 0x0
op 0 mmu 0x7ff0 0x4000 0x6003
op 0 read k 0x0
op 0 ext 6 0 0
op 0 read k 0x0
turn 0 6
end
reports
op 2 ok done 1 value 0x55
op 4 ok done 1 value 0x55
op 6 ok done 1 value 0x66
---
turns
# Of two vCPUs that pin one table the first one does, and the other finds it pinned.
xen-pv-trace 1
frames 8
domain 8
vcpu 0
vcpu 0
own 0 0 8
cell 5 0 1 0x6001
op 0 ext 0 5 0
op 1 mmu 0x7ff0 0x1 7
op 1 ext 0 5 0
turn 0 1
turn 1 600
turn 0 600
end
reports
op 2 refused 6 done 0 AlreadyPinned found=L1,1,pv
---
turns --preempt 1
# The same two, paused at each ask: the other takes the table on, and the first one finds it pinned.
xen-pv-trace 1
frames 8
domain 8
vcpu 0
vcpu 0
own 0 0 8
cell 5 0 1 0x6001
op 0 ext 0 5 0
op 1 mmu 0x7ff0 0x1 7
op 1 ext 0 5 0
turn 0 1
turn 1 600
turn 0 600
end
reports
op 1 refused 6 done 0 AlreadyPinned found=L1,1,pv
op 2 ok done 1 value 0x0
";

// Frames given back and blocks taken.
static EXTENTS: &str = "turns
# A frame given back while a table maps it stays its owner's, and is no longer allocated; so it cannot be given back twice.
xen-pv-trace 1
frames 16
domain 16
vcpu 0
own 0 0 8
cell 5 0 1 0x6001
op 0 ext 0 5 0
op 0 mem 1 0 6
op 0 mem 1 0 6
op 0 ext 4 5 0
turn 0 3
end
reports
op 2 ok done 1 value 0x0
op 3 refused 2 done 0 WrongOwner frame=6 found=d0,1
domain 0 live pages 8
frame 6 owner 0 refs 1 - type none count 0 flags - at 0 m2p -
---
turns
# It is free when the last table that maps it is unpinned.
xen-pv-trace 1
frames 16
domain 16
vcpu 0
own 0 0 8
cell 5 0 1 0x6001
op 0 ext 0 5 0
op 0 mem 1 0 6
op 0 ext 4 5 0
turn 0 3
end
reports
op 3 ok done 1 value 0x0
domain 0 live pages 7
free 9
---
turns
# A list of extents goes on from the one that its command names; and a block is aligned.
xen-pv-trace 1
frames 16
domain 16
vcpu 0
own 0 0 8
op 0 mem 65 0 6 7
op 0 mem 0 1 1
op 0 mem 0 3 1
turn 0 3
end
reports
op 1 ok done 2 value 0x0
op 2 given 0 8
op 2 ok done 1 value 0x0
op 3 refused 15 done 0 DomainFull found=9
frame 6 owner 0 refs 1 alloc type none count 0 flags - at 0 m2p -
free 7
---
turns
# Blocks of orders 9, 7, 6, 4 and 0 around a frame that is not free.
xen-pv-trace 1
frames 600
domain 600
vcpu 0
own 0 0 1
own 0 130 1
op 0 mem 0 9 1
op 0 mem 0 7 1
op 0 mem 1 7 256
op 0 mem 0 6 1
op 0 mem 1 6 64
op 0 mem 0 4 1
op 0 mem 0 0 2
turn 0 7
end
reports
op 1 refused 16 done 0 NoFree
op 2 given 0 256
op 3 ok done 1 value 0x0
op 4 given 0 64
op 6 given 0 16
op 7 given 0 1
op 7 given 1 2
op 7 ok done 2 value 0x0
domain 0 live pages 20
free 580
---
turns
# A block that is populated has the page numbers from the one asked on; a number that no guest has is refused, and what was given before stays.
xen-pv-trace 1
frames 16
domain 16
vcpu 0
own 0 0 3
op 0 mem 6 1 0x40 0x10000000000000
turn 0 1
end
reports
op 1 given 0 4
op 1 refused 17 done 1 BadRange
domain 0 live pages 5
frame 4 owner 0 refs 1 alloc type none count 0 flags - at 0 m2p 0x40
frame 5 owner 0 refs 1 alloc type none count 0 flags - at 0 m2p 0x41
---
turns
# What a list of extents is refused for as a whole, in its order: no single count, too many, no such command, the order, the first extent.
xen-pv-trace 1
frames 16
domain 16
vcpu 0
own 0 0 3
op 0 mem 0 0
op 0 mem 0 0 1 1
op 0 mem 0 0 513
op 0 mem 2 0
op 0 mem 2 10 0
op 0 mem 1 10 0
op 0 mem 129 0 0
op 0 mem 0 10 0
op 0 mem 64 0 1
turn 0 9
end
reports
op 1 refused 17 done 0 BadRange
op 2 refused 17 done 0 BadRange
op 3 refused 21 done 0 BatchLong
op 4 ok done 0 value 0x0
op 5 refused 19 done 0 BadCommand
op 6 refused 17 done 0 BadRange
op 7 refused 17 done 0 BadRange
op 8 ok done 0 value 0x0
op 9 ok done 1 value 0x0
---
turns --preempt 1
# Paused behind each extent, it has given the blocks of those that are done.
xen-pv-trace 1
frames 16
domain 16
vcpu 0
own 0 0 3
op 0 mem 0 0 3
op 0 mem 1 0 0 1
turn 0 2
end
reports
op 1 given 0 3
op 1 given 1 4
pending 2
domain 0 live pages 5
---
turns
# An extent is given back up to the first frame that may not be; the frames before it stay given back.
xen-pv-trace 1
frames 16
domain 16
domain 16
vcpu 0
vcpu 1
own 0 0 4
own 1 4 4
op 0 mem 1 2 2
turn 0 1
end
reports
op 1 refused 2 done 0 WrongOwner frame=4 found=d1,1,a
domain 0 live pages 2
free 10
---
turns
# A frame is not given while a vCPU of its last owner may have a translation to it.
xen-pv-trace 1
frames 16
domain 16
domain 16
vcpu 0
vcpu 1
own 0 0 8
own 1 8 2
cell 1 0 1 0x2003
cell 2 0 1 0x3003
cell 3 0 1 0x4003
cell 4 0 1 0x5003
cell 5 7 1 0x77
op 0 ext 5 1 0
op 0 read k 0x38
op 0 mmu 0x7ff0 0x4000 0
op 0 mem 1 0 5
op 0 read k 0x38
op 1 mem 0 0 1
turn 0 4
turn 1 2
end
reports
op 2 ok done 1 value 0x77
op 4 ok done 1 value 0x0
domain 0 live pages 7
domain 1 live pages 2
free 7
---
turns
# When that one has flushed, the frame is given, and nothing leads to it.
xen-pv-trace 1
frames 16
domain 16
domain 16
vcpu 0
vcpu 1
own 0 0 8
own 1 8 2
cell 1 0 1 0x2003
cell 2 0 1 0x3003
cell 3 0 1 0x4003
cell 4 0 1 0x5003
cell 5 7 1 0x77
op 0 ext 5 1 0
op 0 read k 0x38
op 0 mmu 0x7ff0 0x4000 0
op 0 mem 1 0 5
op 0 read k 0x38
op 1 mem 0 0 1
turn 0 4
turn 1 2
turn 0 1
turn 1 1
end
reports
op 5 refused 9 done 0 NotMapped level=1 entry=0x0
op 1 given 0 5
domain 1 live pages 3
frame 5 owner 1 refs 1 alloc type wr count 0 flags - at 0 m2p -
";

// What the count limit and the last value of the clock refuse, each beside the same trace with one more.
static AT_LIMITS: &str = "turns
# A pin that is not paused needs one reference to its table beside the owner's.
xen-pv-trace 1
frames 16
limit 2
domain 16
vcpu 0
own 0 0 8
cell 5 0 1 0x6001
cell 5 1 1 0x7001
op 0 ext 0 5 0
turn 0 9
end
reports
op 1 ok done 1 value 0x0
frame 5 owner 0 refs 2 alloc type L1 count 1 flags pv at 0 m2p -
---
turns --preempt 1
# One that is paused needs one more, where it goes on: at the limit it is refused, and its table stays partial.
xen-pv-trace 1
frames 16
limit 2
domain 16
vcpu 0
own 0 0 8
cell 5 0 1 0x6001
cell 5 1 1 0x7001
op 0 ext 0 5 0
turn 0 9
end
reports
op 1 refused 5 done 0 CountFull frame=5 found=d0,2,a
frame 5 owner 0 refs 2 alloc type L1 count 1 flags hk at 1 m2p -
frame 6 owner 0 refs 2 alloc type none count 0 flags - at 0 m2p -
frame 7 owner 0 refs 1 alloc type none count 0 flags - at 0 m2p -
---
turns
# A pin of a frame that was written needs a flush, and is done where the clock has a value left for it.
xen-pv-trace 1
frames 16
clock 68719476733
domain 16
vcpu 0
own 0 0 8
op 0 mmu 0x7ff0 0x5000 0x0
op 0 ext 0 5 0
turn 0 9
end
reports
op 2 ok done 1 value 0x0
frame 5 owner 0 refs 2 alloc type L1 count 1 flags pv at 0 m2p -
---
turns
# Where the clock has none, the same pin is refused.
xen-pv-trace 1
frames 16
clock 68719476734
domain 16
vcpu 0
own 0 0 8
op 0 mmu 0x7ff0 0x5000 0x0
op 0 ext 0 5 0
turn 0 9
end
reports
op 2 refused 20 done 0 Clock found=68719476734
frame 5 owner 0 refs 1 alloc type L1 count 0 flags u at 0 m2p -
---
turns
# A new base could not flush there, and is refused before anything is taken.
xen-pv-trace 1
frames 16
clock 68719476734
domain 16
domain 16
priv 0 1
vcpu 0
vcpu 1
vcpu 1
own 0 0 4
own 1 4 8
cell 4 0 1 0x5003
cell 5 0 1 0x6003
cell 6 0 1 0x7003
cell 7 0 1 0x8003
op 1 ext 5 4 0
turn 1 1
end
reports
op 1 refused 20 done 0 Clock found=68719476734
frame 4 owner 1 refs 1 alloc type none count 0 flags - at 0 m2p -
---
turns
# An entry that maps its own table read-only takes a reference while the write holds another for its lock.
xen-pv-trace 1
frames 16
limit 4
domain 16
vcpu 0
own 0 0 8
op 0 ext 0 5 0
op 0 mmu 0x7ff0 0x5000 0x5001
turn 0 9
end
reports
op 2 ok done 1 value 0x0
frame 5 owner 0 refs 3 alloc type L1 count 1 flags pv at 0 m2p -
---
turns
# So at a limit of three it is refused: the lock held the third, and gave it back.
xen-pv-trace 1
frames 16
limit 3
domain 16
vcpu 0
own 0 0 8
op 0 ext 0 5 0
op 0 mmu 0x7ff0 0x5000 0x5001
turn 0 9
end
reports
op 2 refused 5 done 0 CountFull frame=5 found=d0,3,a
frame 5 owner 0 refs 2 alloc type L1 count 1 flags pv at 0 m2p -
";

// Descriptor tables, whole pages, and updates by address.
static BY_ADDRESS: &str = "turns
# A GDT may name one frame twice, and then counts it twice; another GDT gives the pages of the first back, and an empty one all.
xen-pv-trace 1
frames 16
domain 16
vcpu 0
own 0 0 8
cell 5 0 1 0xcf92000000ffff
op 0 gdt 1024 5 5
op 0 gdt 512 5
op 0 gdt 0
turn 0 3
end
reports
op 1 ok done 1 value 0x0
op 2 ok done 1 value 0x0
op 3 ok done 1 value 0x0
frame 5 owner 0 refs 1 alloc type desc count 0 flags - at 0 m2p -
---
turns
# A descriptor that has no fixed form, in the last word of the third page, refuses the GDT; the pages before it are given back, and the GDT that stands stays. So does a wrong number of pages, or of entries.
xen-pv-trace 1
frames 16
domain 16
vcpu 0
own 0 0 8
cell 3 511 1 0x8c0000000000
op 0 gdt 512 4
op 0 gdt 1536 1 2 3
op 0 gdt 513 1
op 0 gdt 7169 1
turn 0 4
end
reports
op 1 ok done 1 value 0x0
op 2 refused 18 done 0 BadDescriptor frame=3 index=511 word=0x8c0000000000
op 3 refused 17 done 0 BadRange
op 4 refused 17 done 0 BadRange
frame 1 owner 0 refs 1 alloc type desc count 0 flags - at 0 m2p -
frame 3 owner 0 refs 1 alloc type desc count 0 flags - at 0 m2p -
frame 4 owner 0 refs 2 alloc type desc count 1 flags v at 0 m2p -
---
turns
# Of a GDT's two pages the second waits for a flush: the first is given back. Another vCPU takes the waiting page on, which has flushed then; and the first one goes on.
xen-pv-trace 1
frames 16
domain 8
vcpu 0
vcpu 0
own 0 0 8
op 0 mmu 0x7ff0 0x5000 0x1
op 0 gdt 1024 4 5
op 1 gdt 1 5
turn 0 3
turn 1 1
turn 0 1
end
reports
op 1 ok done 1 value 0x0
op 2 ok done 1 value 0x0
frame 4 owner 0 refs 2 alloc type desc count 1 flags v at 0 m2p -
frame 5 owner 0 refs 3 alloc type desc count 2 flags v at 0 m2p -
---
turns
# Pages are copied, onto themselves too, and cleared; not from or to a frame of nobody, and not into a page of the GDT. A descriptor there is updated in its fixed form, and one in ordinary memory too.
xen-pv-trace 1
frames 16
domain 16
vcpu 0
own 0 0 8
op 0 mmu 0x7ff0 0x5000 0x1234 0x5ff8 0x5678
op 0 ext 17 6 5 17 5 5 16 5 0
op 0 ext 17 6 9
op 0 gdt 512 6
op 0 ext 16 6 0
op 0 desc 0x6008 0xaf9a000000ffff
op 0 desc 0x6004 0
op 0 desc 0x6010 0x8c0000000000
op 0 desc 0x7010 0xaf9a000000ffff
op 0 desc 0x9000 0
turn 0 10
end
reports
op 1 ok done 2 value 0x0
op 2 ok done 3 value 0x0
op 3 refused 2 done 0 WrongOwner frame=9 found=free
op 4 ok done 1 value 0x0
op 5 refused 3 done 0 OtherType frame=6 want=wr found=desc,1,v
op 6 ok done 1 value 0x0
op 7 refused 17 done 0 BadRange
op 8 refused 18 done 0 BadDescriptor frame=6 index=2 word=0x8c0000000000
op 9 ok done 1 value 0x0
op 10 refused 2 done 0 WrongOwner frame=9 found=free
---
turns
# An LDT begins at a page, at a canonical address; its pages are walked to where the guest touches them, also across the edge of the canonical addresses, and without a base there is no way.
xen-pv-trace 1
frames 16
domain 16
vcpu 0
own 0 0 8
op 0 ext 13 0x1001 1
op 0 ext 13 0x1000 8193
op 0 ext 13 0x800000000000 1
op 0 ext 13 0x7ffffffff000 1024
op 0 ldt 1
op 0 ldt 2
op 0 ext 13 0xffff7ffffffff000 1
op 0 ext 13 0x7fffff000 8192
op 0 ldt 0
turn 0 9
end
reports
op 1 refused 17 done 0 BadRange
op 2 refused 17 done 0 BadRange
op 3 refused 11 done 0 NonCanonical
op 4 ok done 1 value 0x0
op 5 refused 11 done 0 NonCanonical
op 6 refused 17 done 0 BadRange
op 7 refused 11 done 0 NonCanonical
op 8 ok done 1 value 0x0
op 9 refused 9 done 0 NotMapped level=5 entry=0x0
---
turns
# A page of the LDT is taken at its first touch, and given back where an LDT is set again.
xen-pv-trace 1
frames 16
domain 14
vcpu 0
own 0 0 14
cell 0 0 1 0x1007
cell 1 0 1 0x2007
cell 2 0 1 0x3007
cell 3 9 1 0x9005
op 0 ext 5 0 0
op 0 ext 13 0x9000 512
op 0 ldt 0
op 0 ldt 0
op 0 ext 13 0x9000 512
op 0 ldt 1
turn 0 6
end
reports
op 3 ok done 1 value 0x0
op 4 ok done 1 value 0x0
op 5 ok done 1 value 0x0
op 6 refused 17 done 0 BadRange
frame 9 owner 0 refs 2 alloc type desc count 0 flags - at 0 m2p -
---
turns
# An entry is set by the address that it maps, with each of its flags, for own frames and for another domain's; what is no address, leads to no table, or names no such domain is refused.
xen-pv-trace 1
frames 16
domain 8
domain 8
priv 0 1
vcpu 0
own 0 0 8
own 1 8 8
cell 0 0 1 0x1007
cell 1 0 1 0x2007
cell 2 0 1 0x3007
op 0 va 0x4000 0x4007 0
op 0 ext 5 0 0
op 0 va 0x4000 0x4007 0
op 0 va 0x4000 0x5007 1
op 0 va 0x4000 0x6007 2
op 0 va 0x4000 0x6007 3
op 0 va 0x4000 0x6007 8
op 0 va 0x4000 0x7007 4
op 0 va 0x4000 0x7007 6
op 0 va 0x200000 0x7007 0
op 0 va 0x800000000000 0 0
op 0 va 0xffff800000000000 0 0
op 0 va 0x5000 0x8007 0
op 0 vaother 0x5000 0x8007 0 1
op 0 vaother 0x5000 0x8007 0 0x10000
op 0 vaother 0x5000 0x8007 0 2
turn 0 16
end
reports
op 1 refused 9 done 0 NotMapped level=5 entry=0x0
op 3 ok done 1 value 0x0
op 4 ok done 1 value 0x0
op 5 ok done 1 value 0x0
op 6 refused 17 done 0 BadRange
op 7 refused 17 done 0 BadRange
op 8 ok done 1 value 0x0
op 9 ok done 1 value 0x0
op 10 refused 9 done 0 NotMapped level=2 entry=0x0
op 11 refused 11 done 0 NonCanonical
op 12 refused 8 done 0 Slot index=256
op 13 refused 2 done 0 WrongOwner frame=8 found=d1,1,a
op 14 ok done 1 value 0x0
op 15 refused 17 done 0 BadRange
frame 8 owner 1 refs 2 alloc type wr count 1 flags v at 0 m2p -
---
turns
# An update by address waits until the other vCPU of the domain has dropped its translations; its entry is set meanwhile.
xen-pv-trace 1
frames 16
domain 8
vcpu 0
vcpu 0
own 0 0 8
cell 0 0 1 0x1007
cell 1 0 1 0x2007
cell 2 0 1 0x3007
cell 3 4 1 0x4007
op 0 ext 5 0 0
op 0 va 0x4000 0x5007 6
op 1 ext 5 0 0
op 1 write k 0x4008 0x11
turn 0 1
turn 1 2
turn 0 2
end
reports
pending 1
frame 4 owner 0 refs 1 alloc type wr count 0 flags - at 0 m2p -
frame 5 owner 0 refs 2 alloc type wr count 1 flags v at 0 m2p -
---
turns
# It goes on when that has flushed, at the beginning of its next turn.
xen-pv-trace 1
frames 16
domain 8
vcpu 0
vcpu 0
own 0 0 8
cell 0 0 1 0x1007
cell 1 0 1 0x2007
cell 2 0 1 0x3007
cell 3 4 1 0x4007
op 0 ext 5 0 0
op 0 va 0x4000 0x5007 6
op 0 read k 0x4000
op 1 ext 5 0 0
op 1 write k 0x4008 0x11
op 1 read k 0x4008
turn 0 1
turn 1 2
turn 0 1
turn 0 1
turn 1 1
turn 0 1
turn 0 1
end
reports
op 2 ok done 1 value 0x0
op 3 ok done 1 value 0x0
";

static MULTICALLS: &str = "turns --preempt 256
# Each call is answered in order, the refused one too, and then the multicall itself.
xen-pv-trace 1
frames 16
domain 16
vcpu 0
own 0 0 8
cell 5 0 512 0x6001
op 0 multi mmu 0x7ff0 0x1 7 ; ext 0 5 0 ; ext 0 5 0
turn 0 4
end
reports
op 1 call 1 ok done 1 value 0x0
op 1 call 2 ok done 1 value 0x0
op 1 call 3 refused 6 done 0 AlreadyPinned found=L1,1,pv
op 1 ok done 3 value 0x0
---
turns --preempt 1
# A call that pauses is gone on with, and the line of the call before it stands; the next turn does not answer that one again.
xen-pv-trace 1
frames 16
domain 16
vcpu 0
own 0 0 8
cell 5 0 512 0x6001
op 0 multi mmu 0x7ff0 0x1 7 ; ext 0 5 0 ; ext 0 5 0
turn 0 3
end
reports
op 1 call 1 ok done 1 value 0x0
pending 1
frame 5 owner 0 refs 2 alloc type L1 count 1 flags hk at 3 m2p -
frame 6 owner 0 refs 4 alloc type none count 0 flags - at 0 m2p -
---
turns
# Blocks that a call is given stand in front of its answer; an unknown command, an empty list and bad flags are answers of their calls alone.
xen-pv-trace 1
frames 16
domain 16
vcpu 0
own 0 0 8
op 0 multi mem 0x1 0 7 ; mem 0x6 0 9 ; ext 99 0 0 ; mmu 0x7ff0 ; va 0x1000 0x0 3
turn 0 1
end
reports
op 1 call 1 ok done 1 value 0x0
op 1 call 2 given 0 7
op 1 call 2 ok done 1 value 0x0
op 1 call 3 refused 19 done 0 BadCommand
op 1 call 4 ok done 0 value 0x0
op 1 call 5 refused 17 done 0 BadRange
op 1 ok done 5 value 0x0
frame 7 owner 0 refs 1 alloc type none count 0 flags - at 0 m2p 0x9
---
turns
# What a refused call leaves unfinished is settled in front of the next one, in the same turn.
xen-pv-trace 1
frames 16
domain 16
vcpu 0
own 0 0 8
cell 5 0 1 0x5003
op 0 multi ext 0 5 0 ; ext 0 6 0
turn 0 1
end
reports
op 1 call 1 refused 3 done 0 OtherType frame=5 want=wr found=L1,1,l
op 1 call 2 ok done 1 value 0x0
op 1 ok done 2 value 0x0
vcpu 0 domain 0 base - user - old - -
frame 5 owner 0 refs 1 alloc type L1 count 0 flags - at 0 m2p -
frame 6 owner 0 refs 2 alloc type L1 count 1 flags pv at 0 m2p -
---
turns --preempt 1
# Settled in several turns, the call behind it waits.
xen-pv-trace 1
frames 16
domain 16
vcpu 0
own 0 0 8
cell 5 0 512 0x6001
cell 5 3 1 0x81
op 0 multi ext 0 5 0 ; mmu 0x7ff0 0x1 7 0x1001 8 ; ext 0 5 0
turn 0 4
end
reports
op 1 call 1 refused 4 done 0 Reserved frame=5 index=3 entry=0x81
pending 1
frame 0 owner 0 refs 1 alloc type none count 0 flags - at 0 m2p -
";

// Destructions of domains.
static DESTRUCTIONS: &str = "turns
# A destruction waits for each vCPU of the domain to stop.
xen-pv-trace 1
frames 16
domain 16
domain 16
priv 0 1
vcpu 0
vcpu 1
vcpu 1
own 0 0 4
own 1 4 8
op 0 destroy 1
op 1 read k 0x0
turn 0 1
end
reports
pending 1
pending 1
domain 1 dying pages 8
frame 11 owner 1 refs 1 alloc type none count 0 flags - at 0 m2p -
---
turns
# A stopped vCPU refuses its operations; all frames of the domain are free, and it is dead.
xen-pv-trace 1
frames 16
domain 16
domain 16
priv 0 1
vcpu 0
vcpu 1
vcpu 1
own 0 0 4
own 1 4 8
op 0 destroy 1
op 1 read k 0x0
turn 0 1
turn 1 1
turn 2 1
turn 0 1
end
reports
op 1 ok done 1 value 0x0
op 1 refused 14 done 0 Dying domain=1 found=1
domain 1 dead pages 0
free 12
---
turns
# A frame that another domain maps is listed with its one reference, and stays.
xen-pv-trace 1
frames 16
domain 6
domain 6
priv 0 1
vcpu 0
vcpu 1
own 0 0 2
own 1 8 5
cell 8 0 1 0x9003
cell 9 0 1 0xa003
cell 10 0 1 0xb003
cell 11 0 1 0xc003
op 1 ext 3 8 0 5 8 0
op 0 ext 0 1 0
op 0 mmu 0x1 0x1000 0xc001
op 0 destroy 1
op 0 mmu 0x7ff0 0x1000 0x0
turn 1 1
turn 0 3
turn 1 1
turn 0 1
end
reports
op 3 left 12 refs d1,1
op 3 ok done 1 value 0x1
domain 1 dead pages 1
frame 12 owner 1 refs 1 - type wr count 0 flags - at 0 m2p -
---
turns
# As the last reference to it is given back it is free, too.
xen-pv-trace 1
frames 16
domain 6
domain 6
priv 0 1
vcpu 0
vcpu 1
own 0 0 2
own 1 8 5
cell 8 0 1 0x9003
cell 9 0 1 0xa003
cell 10 0 1 0xb003
cell 11 0 1 0xc003
op 1 ext 3 8 0 5 8 0
op 0 ext 0 1 0
op 0 mmu 0x1 0x1000 0xc001
op 0 destroy 1
op 0 mmu 0x7ff0 0x1000 0x0
turn 1 1
turn 0 3
turn 1 1
turn 0 2
end
reports
op 3 left 12 refs d1,1
op 3 ok done 1 value 0x1
op 4 ok done 1 value 0x0
domain 1 dead pages 0
free 14
---
turns --preempt 1
# A multicall that its dying domain cuts off tells how many of its calls were answered, and not how many elements of the next.
xen-pv-trace 1
frames 8
domain 4
domain 4
priv 0 1
vcpu 0
vcpu 1
own 0 0 1
own 1 4 3
op 0 destroy 1
op 1 multi mmu 0x7ff0 0x4001 7 ; mmu 0x7ff0 0x4001 7 0x5001 8 0x6001 9
turn 1 2
turn 0 1
turn 1 1
turn 0 1
end
reports
pending 1
op 1 call 1 ok done 1 value 0x0
op 1 refused 14 done 1 Dying domain=1 found=1
domain 1 dying pages 3
---
turns --preempt 2
# A pinned table loses its pin, and is released entry by entry, as the gate lets it.
xen-pv-trace 1
frames 8
domain 4
domain 4
priv 0 1
vcpu 0
vcpu 1
own 0 0 1
own 1 4 3
cell 4 0 4 0x5001
op 1 ext 0 4 0
op 0 destroy 1
turn 1 1
turn 0 1
turn 1 1
turn 0 3
end
reports
vcpu 0 domain 0 base - user - old - -
op 1 ok done 1 value 0x0
op 1 refused 14 done 0 Dying domain=1 found=1
domain 1 dead pages 0
---
turns --preempt 1
# A table that its vCPU left partial, with its kept mark, is released from where it stands.
xen-pv-trace 1
frames 16
domain 8
domain 8
priv 0 1
vcpu 0
vcpu 1
own 0 0 1
own 1 4 3
cell 4 0 512 0x5001
op 1 ext 0 4 0
op 0 destroy 1
turn 1 3
turn 0 1
turn 1 1
turn 0 9
end
reports
vcpu 0 domain 0 base - user - old - -
op 1 ok done 1 value 0x0
op 1 refused 14 done 0 Dying domain=1 found=1
domain 1 dead pages 0
---
turns
# Two vCPUs destroy the domains of each other: the one that comes second finds its own dying.
xen-pv-trace 1
frames 16
domain 8
domain 8
priv 0 1
priv 1 0
vcpu 0
vcpu 1
own 0 0 2
own 1 4 2
op 0 destroy 1
op 1 destroy 0
turn 0 1
turn 1 2
turn 0 2
end
reports
op 1 ok done 1 value 0x0
op 1 refused 14 done 0 Dying domain=1 found=1
domain 0 live pages 2
domain 1 dead pages 0
---
turns
# The own domain, one without privilege, one that there is not, and one that is dead are refused.
xen-pv-trace 1
frames 8
domain 4
domain 4
domain 4
priv 0 1
vcpu 0
vcpu 1
own 0 0 1
op 0 destroy 0
op 0 destroy 2
op 0 destroy 3
op 0 destroy 1
op 0 destroy 1
turn 0 4
turn 1 1
turn 0 2
end
reports
op 1 refused 12 done 0 NoPrivilege caller=0 domain=0
op 2 refused 12 done 0 NoPrivilege caller=0 domain=2
op 3 refused 13 done 0 NoDomain
op 4 ok done 1 value 0x0
op 5 refused 14 done 0 Dying domain=1 found=255
domain 1 dead pages 0
";

// Each of them is reported with what it leaves.
fn check(rt: &(impl Abort + AllocGlobal), examples: &str) {
    for example in examples.split("---\n") {
        let (report, lines) = reported(rt, example);
        assert!(rt; has_lines(rt, &report, lines), "{example}");
    }
}

#[test]
fn each_example_is_reported_with_what_it_leaves(rt: HostRuntime) {
    check(&rt, EXAMPLES);
}

#[test]
fn each_example_in_which_a_pause_or_a_stale_translation_is_seen_is_reported(rt: HostRuntime) {
    check(&rt, SEEN);
}

#[test]
fn each_example_of_extents_is_reported_with_what_it_leaves(rt: HostRuntime) {
    check(&rt, EXTENTS);
}

#[test]
fn each_example_at_a_limit_is_reported_with_what_it_leaves(rt: HostRuntime) {
    check(&rt, AT_LIMITS);
}

#[test]
fn each_example_by_address_is_reported_with_what_it_leaves(rt: HostRuntime) {
    check(&rt, BY_ADDRESS);
}

#[test]
fn each_multicall_is_reported_with_what_it_leaves(rt: HostRuntime) {
    check(&rt, MULTICALLS);
}

#[test]
fn each_destruction_is_reported_with_what_it_leaves(rt: HostRuntime) {
    check(&rt, DESTRUCTIONS);
}
