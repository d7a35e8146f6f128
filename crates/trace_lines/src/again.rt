ghost use Rattle.std.specs.Prelude.{◌≡◌, ◌≢◌, All, Ok, slice_index};
ghost use Rattle.trace_lines.specs.Grammar.{line_of as line_of_lem};
ghost use Rattle.trace_lines.specs.Spelling.{IsSpellable, line_text};

use crate::line::Line;

/// A law, with nothing to run: the text of a line is one line and no comment, and is read as that line.
pub fn is_read_again(version: u8, line: &Line)
    requires { IsSpellable version line.now }
    ensures again { line_of_lem version (line_text line.now) ≡ Ok line.now }
    ensures whole { All (λ b. b ≢ 10) (line_text line.now) }
    ensures plain { slice_index (line_text line.now) 0 ≢ 35 }
{}
