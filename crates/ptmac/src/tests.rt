use crate::advice::advice_for;
use xp_machine::Status;

// Whether a line of the text begins with these words, behind two spaces.
fn explains(text: &str, words: &str) -> bool {
    for line in text.lines() {
        if let Some(rest) = line.strip_prefix("  ") {
            if rest.starts_with(words) {
                return true;
            }
        }
    }
    false
}

#[test]
fn a_done_run_is_silent(rt: HostRuntime) {
    assert!(rt; advice_for(&Status::Done).is_none());
}

#[test]
fn unknown_words_get_a_usage_that_explains_each_command_and_status(rt: HostRuntime) {
    let usage = advice_for(&Status::BadWords).unwrap_or("");
    for words in [
        "turns [",
        "replay [",
        "image [",
        "generate C",
        "audit [",
        "draw [",
        "0 ",
        "2 ",
        "3 ",
        "4 ",
        "5 ",
        "6 ",
        "7 ",
        "8 ",
        "9 ",
    ] {
        assert!(rt; explains(usage, words), "{words}");
    }
}

#[test]
fn every_other_status_gets_one_line_of_its_own(rt: HostRuntime) {
    for (status, words) in [
        (Status::BadTrace, "ptmac: the input is no trace."),
        (Status::TooLarge, "ptmac: the input passes a limit."),
        (Status::ReadFault, "ptmac: reading the input failed."),
        (Status::WriteFault, "ptmac: writing standard output failed"),
        (Status::Memory, "ptmac: there was too little memory."),
        (Status::BadImage, "ptmac: the input is no image."),
        (
            Status::Unsound,
            "ptmac: the machine of the image is not sound.",
        ),
    ] {
        let advice = advice_for(&status).unwrap_or("");
        assert!(rt; advice.starts_with(words), "{words}");
        assert!(rt; advice.split('\n').count() == 1, "{words}");
    }
}
