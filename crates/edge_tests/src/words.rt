//! The words of the command line (command_words).
use command_words::{Asked, Manner, asked_of, path_of};
use std::test::Fail;

// The words of a line, cut at its spaces.
fn words_of(rt: &HostRuntime, line: &str) -> Result<Vec<String>, Fail> {
    let mut words = Vec::new(rt.alloc());
    for word in line.split(' ') {
        words.push(String::from_str(rt.alloc(), word)?)?;
    }
    Ok(words)
}

// What the words of a line ask for.
fn asked_of_line(rt: &HostRuntime, line: &str) -> Result<Option<Asked>, Fail> {
    Ok(asked_of(rt.alloc(), &words_of(rt, line)?)?)
}

#[test]
fn reads_each_form_of_turns_replay_and_image(rt: HostRuntime) -> Result<(), Fail> {
    for (form, pace) in [
        ("", 0),
        (" --preempt 0", 0),
        (" --preempt 17", 17),
        (" --preempt=17", 17),
        (" --preempt 999999", 999_999),
        (" --preempt=1000000", 1_000_000),
    ] {
        for (command, due) in [
            (
                "turns",
                Asked::Run {
                    manner: Manner::Turns,
                    pace,
                },
            ),
            (
                "replay",
                Asked::Run {
                    manner: Manner::Replay,
                    pace,
                },
            ),
            ("image", Asked::Image { pace }),
        ] {
            let line = format!(in rt.alloc(); "{command}{form}")?;
            assert!(rt; asked_of_line(&rt, line.as_str())? == Some(due), "{line}");
        }
    }
    Ok(())
}

#[test]
fn reads_the_steps_before_a_pace_and_behind_it(rt: HostRuntime) -> Result<(), Fail> {
    for (line, pace) in [
        ("turns --steps", 0),
        ("turns --steps --preempt 17", 17),
        ("turns --preempt 17 --steps", 17),
        ("turns --steps --preempt=17", 17),
        ("turns --preempt=17 --steps", 17),
    ] {
        assert!(rt;
            asked_of_line(&rt, line)? == Some(Asked::Steps { pace }),
            "{line}"
        );
    }
    Ok(())
}

#[test]
fn reads_each_number_of_operations(rt: HostRuntime) -> Result<(), Fail> {
    for (line, operations) in [
        ("generate 1", 1),
        ("generate 9", 9),
        ("generate 600", 600),
        ("generate 59999", 59_999),
        ("generate 60000", 60_000),
    ] {
        assert!(rt;
            asked_of_line(&rt, line)? == Some(Asked::Generate { operations }),
            "{line}"
        );
    }
    Ok(())
}

const TURNS: Asked = Asked::Run {
    manner: Manner::Turns,
    pace: 0,
};

#[test]
fn reads_the_path_of_an_audit_and_of_a_drawing_alone(rt: HostRuntime) -> Result<(), Fail> {
    for (line, due, path) in [
        ("audit", Some(Asked::Audit), None),
        ("audit saved.image", Some(Asked::Audit), Some("saved.image")),
        ("audit audit", Some(Asked::Audit), Some("audit")),
        ("audit a-b=-", Some(Asked::Audit), Some("a-b=-")),
        ("audit help", Some(Asked::Audit), Some("help")),
        ("audit ./-", Some(Asked::Audit), Some("./-")),
        ("draw", Some(Asked::Draw), None),
        ("draw saved.image", Some(Asked::Draw), Some("saved.image")),
        ("turns", Some(TURNS), None),
        ("turns 1", None, None),
        ("image a", None, None),
        ("audit -a", None, None),
        ("audit a b", None, None),
        ("draw -", None, None),
    ] {
        let words = words_of(&rt, line)?;
        assert!(rt; asked_of(rt.alloc(), &words)? == due, "{line}");
        assert!(rt; path_of(&words) == path, "{line}");
    }
    Ok(())
}

// Lists that a program with these commands would take, were it for `clap` alone.
static TAKEN_BY_CLAP: &str = "--help
-h
help
turns --help
turns --
turns --preempt 1 --
turns --preempt 01
turns --preempt=+1
turns --preempt=-0
turns --steps --
replay --help
replay --
replay --preempt 1 --
replay --preempt 01
replay --preempt=+1
replay --preempt=-0
generate --help
generate 060
generate +5
generate -- 5
generate 5 --
image --
image --preempt 01
audit --
audit -- a
audit a --";

// And others.
static UNKNOWN: &str = "run
turn
Turns
turns turns
turns replay
turns 1
turns --preempt
turns --preempt=
turns --preempt 1000001
turns --preempt 0x10
turns --preempt -- 1
--preempt 1 turns
turns --preempt 1 --preempt 2
turns --preempt=1 --preempt=1
turns --step
turns --steps=1
turns --steps 1
turns --steps --steps
turns --steps --preempt
turns --preempt --steps 1
turns --steps --preempt 1 --steps
--steps turns
Replay
replays
replay turns
replay replay
replay x
replay --preempt
replay --preempt=
replay --preempt 1000001
replay --preempt 0x10
replay --preempt -- 1
--preempt 1 replay
replay --preempt 1 --preempt 2
replay --preempt=1 --preempt=1
replay --steps
Generate 5
generates 5
generate
generate 0
generate 00
generate -5
generate 60001
generate 600000
generate 18446744073709551617
generate 0x5
generate five
generate 5 6
generate=5
generate 5 --preempt 1
generate 5 --steps
generate --preempt 1 5
generate --preempt=1 5
--preempt 1 generate 5
turns generate 5
Image
images
image image
image --preempt 1000001
image --steps
--preempt 1 image
Audit
audit -
audit --a
audit a b
audit --preempt 1
draws
draw -
draw a b";

// An empty word, at the end or alone.
static EMPTY: &str = "audit ||turns |turns --steps |replay |generate ";

// Whether none of these lines is a command.
fn is_no_command(rt: &HostRuntime, lines: &str, between: char) -> Result<bool, Fail> {
    let mut none = true;
    for line in lines.split(between) {
        none = none && asked_of_line(rt, line)?.is_none();
    }
    Ok(none)
}

#[test]
fn knows_no_others(rt: HostRuntime) -> Result<(), Fail> {
    let none: Vec<String> = Vec::new(rt.alloc());
    assert!(rt; asked_of(rt.alloc(), &none)?.is_none());
    assert!(rt; is_no_command(&rt, TAKEN_BY_CLAP, '\n')?);
    assert!(rt; is_no_command(&rt, UNKNOWN, '\n')?);
    assert!(rt; is_no_command(&rt, EMPTY, '|')?);
    Ok(())
}
