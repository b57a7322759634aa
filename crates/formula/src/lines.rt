//! The lines of a formula file: comments and blank lines are passed over.
ghost use Rattle.std.specs.Prelude.{◌≡◌, cond, ◌||◌, Some, None};
ghost use Rattle.std.specs.Option.{option_map};
ghost use Rattle.text.specs.Fronts.{line_of, behind_line, tokens_left, no_tokens};
ghost use Rattle.formula.specs.Rows.{comment};
ghost use Rattle.formula.specs.Cursors.{Sought};

use text::scanner::{line_end, skip_line};

// Whether the line at the front is a comment.
fn is_comment(text: &[u8]) -> bool
    ensures { result ≡ comment (line_of text.now) }
{
    matches!(text, [b'c', ..])
}

// What stands behind the line at the front.
fn next_line(text: &[u8]) -> &[u8]
    ensures { result.now ≡ behind_line text.now }
{
    skip_line(text).unwrap_or(&[])
}

// What stands behind the line at the front, if it is blank or a comment.
fn pass_over(text: &[u8]) -> Option<&[u8]>
    ensures { option_map (λ x. x.now) result ≡ cond (comment (line_of text.now) || no_tokens (tokens_left text.now)) (Some (behind_line text.now)) None }
{
    if is_comment(text) {
        Some(next_line(text))
    } else {
        line_end(text)
    }
}

// The first line that is neither blank nor a comment: the text from it on, and its number, counted
// from 1.
pub(crate) fn seek(text: &[u8]) -> Option<(&[u8], usize)>
    ensures { Sought text.now result }
{
    let mut rest = text;
    let mut lines = 0;
    while !rest.is_empty() {
        let Some(behind) = pass_over(rest) else {
            return Some((rest, lines + 1));
        };
        rest = behind;
        lines += 1;
    }
    None
}
