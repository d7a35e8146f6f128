//! Random traces: four vCPUs of one domain at work on tables that name one another, so that their pins, bases, updates, accesses and
//! flushes meet.
use rand_core::Rng;
use rand_pcg::Pcg32;
use std::alloc::{AllocError, Global};

const VCPUS: u32 = 4;

const OPERATIONS: u32 = 6;

// Frames 0 and 1 are meant as tables of level 4, 2 and 3 of level 3, 4 and 5 of level 2, 6 to 9 of level 1, and 10 to 15 as pages.
fn frame_for(random: &mut Pcg32, level: u32) -> u32 {
    let pick = random.next_u32();
    match level {
        4 => pick % 2,
        3 => 2 + pick % 2,
        2 => 4 + pick % 2,
        1 => 6 + pick % 4,
        _ => 10 + pick % 6,
    }
}

// A frame meant for that level, or once in eight times any frame.
fn frame_near(random: &mut Pcg32, level: u32) -> u32 {
    if random.next_u32() % 8 == 0 {
        random.next_u32() % 16
    } else {
        frame_for(random, level)
    }
}

// An entry of a table of that level: once in eight times 0, and else present.
fn entry(random: &mut Pcg32, level: u32) -> u64 {
    if random.next_u32() % 8 == 0 {
        return 0;
    }
    let frame = frame_near(random, level.saturating_sub(1));
    let flags = 1 + 2 * (random.next_u32() % 2) + 4 * (random.next_u32() % 2);
    u64::from(frame) * 4096 + u64::from(flags)
}

fn level(random: &mut Pcg32) -> u32 {
    1 + random.next_u32() % 4
}

// An address that the first four entries of each table lead to.
fn address(random: &mut Pcg32) -> u64 {
    let mut page: u64 = 0;
    for _ in 0..4 {
        page = page % (1 << 27) * 512 + u64::from(random.next_u32() % 4);
    }
    page % (1 << 36) * 4096 + 8 * u64::from(random.next_u32() % 4)
}

fn put_extended(text: &mut String, random: &mut Pcg32) -> Result<(), AllocError> {
    text.push_str("ext")?;
    for _ in 0..1 + random.next_u32() % 3 {
        let level = level(random);
        let frame = frame_near(random, level);
        match random.next_u32() % 8 {
            0..=2 => write!(text, " {} {} 0", level.saturating_sub(1), frame)?,
            3 => write!(text, " 4 {} 0", frame)?,
            4 => write!(text, " 5 {} 0", frame_near(random, 4))?,
            5 => write!(text, " 15 {} 0", frame_near(random, 4))?,
            6 => write!(
                text,
                " {} {} {}",
                6 + random.next_u32() % 4,
                address(random),
                random.next_u32() % 16
            )?,
            _ => write!(
                text,
                " {} {} 0",
                10 + random.next_u32() % 2,
                address(random)
            )?,
        }
    }
    Ok(())
}

fn put_updates(text: &mut String, random: &mut Pcg32) -> Result<(), AllocError> {
    text.push_str("mmu 0x7ff0")?;
    for _ in 0..1 + random.next_u32() % 3 {
        let level = level(random);
        let cell = u64::from(frame_near(random, level)) * 4096
            + 8 * u64::from(random.next_u32() % 4);
        write!(
            text,
            " {} {}",
            cell + u64::from(random.next_u32() % 3),
            entry(random, level)
        )?;
    }
    Ok(())
}

fn put_operation(text: &mut String, random: &mut Pcg32) -> Result<(), AllocError> {
    match random.next_u32() % 8 {
        0..=3 => put_extended(text, random),
        4..=5 => put_updates(text, random),
        6 => { write!(text, "read k {}", address(random)) }
        _ => { write!(text, "write k {} {}", address(random), entry(random, 1)) }
    }
}

// What the tables hold as the machine opens.
fn put_tables(text: &mut String, random: &mut Pcg32) -> Result<(), AllocError> {
    for level in 1..5 {
        for table in 0..10 {
            for index in 0..4 {
                let word = entry(random, level);
                if is_meant(level, table) {
                    write!(text, "cell {} {} 1 {}\n", table, index, word)?;
                }
            }
        }
    }
    Ok(())
}

// The scripts of all four, the first of which has that number.
fn put_scripts(text: &mut String, random: &mut Pcg32, first: u32) -> Result<(), AllocError> {
    for _ in 0..OPERATIONS {
        for vcpu in 0..VCPUS {
            write!(text, "op {} ", vcpu.saturating_add(first))?;
            put_operation(text, random)?;
            text.push_str("\n")?;
        }
    }
    Ok(())
}

/// The trace of that number.
pub fn random_trace(alloc: Global, number: u64) -> Result<String, AllocError> {
    let mut random = Pcg32::new(number, 0);
    let mut text = String::new(alloc);
    text.push_str("xen-pv-trace 1\nframes 16\ndomain 16\n")?;
    for _ in 0..VCPUS {
        text.push_str("vcpu 0\n")?;
    }
    text.push_str("own 0 0 16\n")?;
    put_tables(&mut text, &mut random)?;
    put_scripts(&mut text, &mut random, 0)?;
    text.push_str("end\n")?;
    Ok(text)
}

/// The same with another domain, 0, of which one vCPU maps some of their frames in its own table, frame 16, and then destroys their domain, 1.
pub fn random_destruction(alloc: Global, number: u64) -> Result<String, AllocError> {
    let mut random = Pcg32::new(number, 1);
    let mut text = String::new(alloc);
    text.push_str("xen-pv-trace 1\nframes 20\ndomain 4\ndomain 16\npriv 0 1\nvcpu 0\n")?;
    for _ in 0..VCPUS {
        text.push_str("vcpu 1\n")?;
    }
    text.push_str("own 0 16 2\nown 1 0 16\n")?;
    put_tables(&mut text, &mut random)?;
    put_scripts(&mut text, &mut random, 1)?;
    text.push_str("op 0 ext 0 16 0\n")?;
    for index in 0..4_u8 {
        let frame = u64::from(random.next_u32() % 16);
        write!(
            text,
            "op 0 mmu 1 {} {}\n",
            65536 + 8 * u64::from(index),
            frame * 4096 + 1
        )?;
    }
    text.push_str("op 0 destroy 1\nop 0 mmu 0x7ff0 65536 0\nend\n")?;
    Ok(text)
}

fn is_meant(level: u32, frame: u32) -> bool {
    match level {
        4 => frame < 2,
        3 => 2 <= frame && frame < 4,
        2 => 4 <= frame && frame < 6,
        _ => 6 <= frame && frame < 10,
    }
}
