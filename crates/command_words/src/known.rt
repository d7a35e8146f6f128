ghost use Rattle.std.specs.Prelude.{◌≡◌, is_some, map, option_map, codes, string_bytes};
ghost use Rattle.std.specs.Str.{bytes_eq};
ghost use Rattle.trace_lines.specs.Numbers.{is_proper as is_proper_lem, numeral};
ghost use Rattle.command_words.specs.Words.{asked_after, words_ask, has_digits as has_digits_lem, is_path as is_path_lem, names_source, reads_image as reads_image_lem, is_steps as is_steps_lem, number_after, number_within, operations_after, pace_behind, pace_in, pace_after, pace_with_steps, path_in};

use crate::asked::CommandName;

// One digit, or more without a leading zero.
fn is_proper(word: &[u8]) -> bool
    ensures { result ≡ is_proper_lem word.now }
{
    match word {
        [] => false,
        [_] => true,
        [first, ..] => *first != b'0',
    }
}

// Digits alone.
fn has_digits(word: &[u8]) -> bool
    ensures { result ≡ has_digits_lem word.now }
{
    word.iter().all(|c| c.is_ascii_digit())
}

// The number that a word spells in decimal, without a leading zero.
fn number_in(word: &str) -> Option<u64>
    ensures { result ≡ numeral 10 word.now }
{
    let is_plain = is_proper(word.as_bytes()) && has_digits(word.as_bytes());
    if is_plain { word.parse().ok() } else { None }
}

fn is_number_within(word: &str, least: u64, most: u64) -> bool
    ensures { result ≡ is_some (number_within least most word.now) }
{
    match number_in(word) {
        Some(number) => least <= number && number <= most,
        None => false,
    }
}

fn is_pace(word: &str) -> bool
    ensures { result ≡ is_some (pace_in word.now) }
{
    is_number_within(word, 0, 1_000_000)
}

fn is_preempt(word: &str) -> bool
    ensures { result ≡ bytes_eq word.now (codes "--preempt") }
{
    word == "--preempt"
}

// The option and its pace in one word.
fn is_preempt_with_pace(word: &str) -> bool
    ensures { result ≡ is_some (pace_behind word.now) }
{
    match word.strip_prefix("--preempt=") {
        Some(pace) => is_pace(pace),
        None => false,
    }
}

// The words behind `turns`, `replay` or `image` give a pace. None of them stand for 0.
fn has_pace(words: &[String]) -> bool
    ensures { result ≡ is_some (pace_after (map string_bytes words.now)) }
{
    match words {
        [] => true,
        [option] => is_preempt_with_pace(option.as_str()),
        [option, pace] => is_preempt(option.as_str()) && is_pace(pace.as_str()),
        _ => false,
    }
}

fn is_steps(word: &str) -> bool
    ensures { result ≡ is_steps_lem word.now }
{
    word == "--steps"
}

// The words behind `turns` ask for the steps, and give a pace.
fn has_steps(words: &[String]) -> bool
    ensures { result ≡ is_some (pace_with_steps (map string_bytes words.now)) }
{
    match words {
        [first, rest @ ..] if is_steps(first.as_str()) => has_pace(rest),
        [rest @ .., last] if is_steps(last.as_str()) => has_pace(rest),
        _ => false,
    }
}

// The words behind `generate` are one number of operations.
fn has_operations(words: &[String]) -> bool
    ensures { result ≡ is_some (operations_after (map string_bytes words.now)) }
{
    match words {
        [operations] => is_number_within(operations.as_str(), 1, 60_000),
        _ => false,
    }
}

// At least one byte, and the first is no `-`.
fn is_path(word: &str) -> bool
    ensures { result ≡ is_path_lem word.now }
{
    match word.as_bytes() {
        [] => false,
        [first, ..] => *first != b'-',
    }
}

// The words behind `audit` or `draw` are the path of a file, or none.
fn has_source(words: &[String]) -> bool
    ensures { result ≡ names_source (map string_bytes words.now) }
{
    match words {
        [] => true,
        [path] => is_path(path.as_str()),
        _ => false,
    }
}

// The words behind a command are such as may stand there.
fn may_follow(name: CommandName, words: &[String]) -> bool
    ensures { result ≡ is_some (asked_after name (map string_bytes words.now)) }
{
    match name {
        CommandName::Turns => has_pace(words) || has_steps(words),
        CommandName::Replay | CommandName::Image => has_pace(words),
        CommandName::Generate => has_operations(words),
        CommandName::Audit | CommandName::Draw => has_source(words),
    }
}

/// Whether the words ask for something. It needs no memory.
pub fn is_known(words: &[String]) -> bool
    ensures { result ≡ is_some (words_ask (map string_bytes words.now)) }
{
    match words {
        [] => false,
        [command, rest @ ..] => match CommandName::named(command.as_str()) {
            Some(name) => may_follow(name, rest),
            None => false,
        },
    }
}

// A command that reads an image.
fn reads_image(word: &str) -> bool
    ensures { result ≡ reads_image_lem word.now }
{
    word == "audit" || word == "draw"
}

/// The path of the file that is to be audited or drawn, where the words name one.
pub fn path_of(words: &[String]) -> Option<&str>
    ensures { option_map (λ s. s.now) result ≡ path_in (map string_bytes words.now) }
{
    match words {
        [command, path] if reads_image(command.as_str()) && is_path(path.as_str()) => {
            Some(path.as_str())
        }
        _ => None,
    }
}
