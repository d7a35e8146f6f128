ghost use Rattle.std.specs.Prelude.{◌≡◌, ◌==◌, [], ◌∷◌, Some, None, Ok, Err, MatchOption, IfSome, ◌<◌, ◌≤◌, ◌+◌, length, take, drop, false};
ghost use Rattle.std.specs.List.{position, position_or_len, slice_split, All};
ghost use Rattle.trace_lines.specs.Steps.{Gives, bad_line};
ghost use Rattle.trace_lines.specs.Words.{words_of, next_word, next_number, end_at, is_nil, is_separator, spaced_words, IsSeparated};

use crate::fault::LineError;
use crate::numbers::first_number;
use memchr::memchr;
use std::marker::Model;

// Where a byte first stands.
fn place_of(byte: u8, bytes: &[u8]) -> Option<usize>
    ensures { result ≡ position (λ b. b == byte) bytes.now }
{
    bytes.iter().position(|b| *b == byte)
}

// How many bytes stand before the first such byte.
fn len_before(byte: u8, bytes: &[u8]) -> usize
    ensures place { result ≡ position_or_len (λ b. b == byte) bytes.now }
    ensures within { result ≤ length bytes.now }
{
    match place_of(byte, bytes) {
        None => bytes.len(),
        Some(at) => at,
    }
}

// Where a byte first stands that is likely to be far away.
fn far_place_of(byte: u8, bytes: &[u8]) -> Option<usize>
    ensures { result ≡ position (λ b. b == byte) bytes.now }
{
    memchr(byte, bytes)
}

// How many bytes stand before the first such byte, which is likely to be far away.
fn far_len_before(byte: u8, bytes: &[u8]) -> usize
    ensures place { result ≡ position_or_len (λ b. b == byte) bytes.now }
    ensures within { result ≤ length bytes.now }
{
    match far_place_of(byte, bytes) {
        None => bytes.len(),
        Some(at) => at,
    }
}

/// What stands before the first such byte, and what stands behind it.
pub fn split_off(byte: u8, bytes: &[u8]) -> Option<(&[u8], &[u8])>
    ensures shorter { IfSome result (λ x. length x.1.now < length bytes.now) }
    ensures parts { MatchOption result (slice_split (λ b. b == byte) bytes.now ≡ bytes.now ∷ [])
        (λ x. slice_split (λ b. b == byte) bytes.now ≡ x.0.now ∷ slice_split (λ b. b == byte) x.1.now) }
{
    let at = far_len_before(byte, bytes);
    if at == bytes.len() {
        return None;
    }
    let (_, rest) = bytes.split_at(at + 1);
    Some((&bytes[..at], rest))
}

/// The words of a line that are still to be read. Contracts see the list of them.
#[derive(Drop)]
pub struct Words<'a> {
    // Each word, with a space before it.
    rest: &'a [u8],
}

impl<'a> Model for Words<'a> {
    ghost use Rattle.std.specs.Prelude.{ℕ, List};
    ghost use Rattle.trace_lines.specs.Words.{spaced_words};

    ghost Value = { List (List ℕ) };

    ghost view = { λ s. spaced_words s.rest.now };
}

impl<'a> Words<'a> {
    /// The first word of a line, and those behind it.
    pub fn first(line: &'a [u8]) -> (&'a [u8], Words<'a>)
        ensures { words_of line.now ≡ result.0.now ∷ result.1 }
    {
        let (word, rest) = line.split_at(len_before(b' ', line));
        (word, Words { rest })
    }

    /// The words before the first word `;`, and those behind it.
    pub fn split_call(&self) -> Option<(Words<'a>, Words<'a>)>
        ensures shorter { IfSome result (λ x. length x.1 < length self.now) }
        ensures parts { MatchOption result (slice_split is_separator self.now ≡ self.now ∷ [])
            (λ x. slice_split is_separator self.now ≡ x.0 ∷ slice_split is_separator x.1) }
    {
        match separator_place(self.rest) {
            None => None,
            Some(place) => {
                let (front, _) = self.rest.split_at(place);
                let (_, behind) = self.rest.split_at(place + 2);
                Some((Words { rest: front }, Words { rest: behind }))
            }
        }
    }

    /// No word is left.
    #[tactic(auto, using(crate::proofs::Splits::split_is_cons))]
    pub fn is_done(&self) -> bool
        ensures { result ≡ is_nil self.now }
    {
        self.rest.is_empty()
    }

    /// The next word; it is then read. Where none is left the line has no form.
    #[tactic(auto, unfolding(crate::specs::Words::next_word))]
    pub fn word(&mut self) -> Result<&'a [u8], LineError>
        ensures { Gives (λ w. (w.now, self.new)) result (next_word self.old) }
    {
        match self.rest {
            [] => Err(LineError::LINE),
            [_, spaced @ ..] => {
                let (word, behind) = Words::first(spaced);
                *self = behind;
                Ok(word)
            }
        }
    }

    /// The next word, which has to spell a number.
    #[inline(always)]
    pub fn number(&mut self) -> Result<u64, LineError>
        ensures { Gives (λ n. (n, self.new)) result (next_number self.old) }
    {
        match self.spelled() {
            None => Err(LineError::LINE),
            Some(n) => Ok(n),
        }
    }

    // The same without its error, which is too large for a register.
    #[tactic(auto, unfolding(crate::specs::Words::next_number))]
    fn spelled(&mut self) -> Option<u64>
        ensures { MatchOption result (next_number self.old ≡ Err bad_line) (λ n. next_number self.old ≡ Ok (n, self.new)) }
    {
        match self.rest {
            [] => None,
            [_, spaced @ ..] => match first_number(spaced) {
                None => None,
                Some((n, len)) => {
                    let (_, behind) = spaced.split_at(len);
                    self.rest = behind;
                    Some(n)
                }
            },
        }
    }

    /// A form ends here: words that are left would be too many.
    #[tactic(auto, unfolding(crate::specs::Words::end_at))]
    pub fn finish(&self) -> Result<(), LineError>
        ensures { Gives (λ u. u) result (end_at self.now) }
    {
        if self.is_done() {
            Ok(())
        } else {
            Err(LineError::LINE)
        }
    }
}

// Where the space before the first word `;` stands.
fn separator_place(spaced: &[u8]) -> Option<usize>
    ensures within { IfSome result (λ at. at + 2 ≤ length spaced.now) }
    ensures parts { MatchOption result (All (λ w. is_separator w ≡ false) (spaced_words spaced.now))
        (λ at. IsSeparated (spaced_words spaced.now) (spaced_words (take at spaced.now)) (spaced_words (drop (at + 2) spaced.now))) }
{
    let mut place = 0;
    'words: while place < spaced.len() {
        let (_, line) = spaced.split_at(place + 1);
        let len = len_before(b' ', line);
        if &line[..len] == b";".as_slice() {
            return Some(place);
        }
        place += 1 + len;
    }
    None
}
