//! The tokens and lines at the front of a text, and what stands behind them.
ghost use Rattle.std.specs.Prelude.{◌≡◌, ◌-◌, ◌<◌, ◌≤◌, false, cond, None, Some, [], length, drop, IfSome, IfNone};
ghost use Rattle.std.specs.Option.{option_map};
ghost use Rattle.text.specs.Words.{limit, blank};
ghost use Rattle.text.specs.Fronts.{ends, unblanked, word_of, behind_word, behind_line, fed, tokens_left, no_tokens, Told, Digits, Naturals, Numbers};

use crate::scan::Scan;

// No number is beyond this in size.
const LIMIT: u64 = 2147483647;

fn is_blank(b: u8) -> bool
    ensures { result ≡ blank b }
{
    b == b' ' || b == b'\t'
}

// Whether the byte ends a word.
fn is_end(b: u8) -> bool
    ensures { result ≡ ends b }
{
    is_blank(b) || b == b'\n'
}

// Here and below a loop and no `position`, which leaves goals that no short answer closes.

// Without the spaces at its front, four at a time: columns are set apart by long runs of them.
fn skip_fours(text: &[u8]) -> &[u8]
    ensures { unblanked result.now ≡ unblanked text.now }
{
    let mut rest = text;
    while let [b' ', b' ', b' ', b' ', behind @ ..] = rest {
        rest = behind;
    }
    rest
}

// The text without the blanks at its front.
fn skip_blanks(text: &[u8]) -> &[u8]
    ensures { result.now ≡ unblanked text.now }
{
    let mut rest = skip_fours(text);
    while let [first, behind @ ..] = rest {
        if !is_blank(*first) {
            break;
        }
        rest = behind;
    }
    rest
}

// The word at the front, and what stands behind it.
fn split_word(text: &[u8]) -> (&[u8], &[u8])
    ensures word { result.0.now ≡ word_of text.now }
    ensures rest { result.1.now ≡ behind_word text.now }
{
    let mut rest = text;
    while let [first, behind @ ..] = rest {
        if is_end(*first) {
            break;
        }
        rest = behind;
    }
    (&text[..text.len() - rest.len()], rest)
}

// The number that the digits up to the end of the word make behind a first one.
fn digits(text: &[u8], first: u64) -> Option<(u64, &[u8])>
    requires { first ≤ limit }
    ensures { Digits text.now first result }
{
    let mut size = first;
    let mut rest = text;
    while let [b, behind @ ..] = rest {
        if is_end(*b) {
            break;
        }
        if !b.is_ascii_digit() || size > LIMIT {
            return None;
        }
        size = size * 10 + u64::from(*b - b'0');
        rest = behind;
    }
    (size <= LIMIT).then_some((size, rest))
}

// The word at the front as a number without a sign: 0, or digits without a leading zero.
fn natural(text: &[u8]) -> Option<(u64, &[u8])>
    ensures { Naturals text.now result }
{
    let (first, behind) = text.split_first()?;
    if !first.is_ascii_digit() {
        return None;
    }
    let (n, rest) = digits(behind, u64::from(*first - b'0'))?;
    if *first == b'0' && rest.len() < behind.len() {
        None
    } else {
        Some((n, rest))
    }
}

// The word at the front as a number: there is no -0.
fn number(text: &[u8]) -> Option<(i32, &[u8])>
    ensures { Numbers text.now result }
{
    match text {
        [b'-', behind @ ..] => match natural(behind)? {
            (0, _) => None,
            (n, rest) => Some((-(n as i32), rest)),
        },
        _ => {
            let (n, rest) = natural(text)?;
            Some((n as i32, rest))
        }
    }
}

/// The text from a position on; a position behind the end means the end.
pub fn text_from(bytes: &[u8], position: usize) -> &[u8]
    ensures { result.now ≡ drop position bytes.now }
{
    bytes.get(position..).unwrap_or(&[])
}

// Inlined into its callers: one that passes blank lines over, or that needs no bytes of a word, then
// pays for neither the call nor the word.
/// The next token of the line, or how the line ends.
#[inline(always)]
pub fn scan(text: &[u8]) -> Scan<'_>
    ensures { Told text.now result }
{
    let front = skip_blanks(text);
    let Some((first, behind)) = front.split_first() else {
        return Scan::TextEnd;
    };
    if *first == b'\n' {
        return Scan::LineEnd(behind);
    }
    match number(front) {
        Some((z, rest)) => Scan::Number(z, rest),
        None => {
            let (word, rest) = split_word(front);
            Scan::Word(word, rest)
        }
    }
}

/// What stands behind the line, if no token is left in it.
pub fn line_end(text: &[u8]) -> Option<&[u8]>
    ensures is { option_map (λ x. x.now) result ≡ cond (no_tokens (tokens_left text.now)) (Some (behind_line text.now)) None }
    ensures shorter { IfSome result (λ x. length x.now ≤ length text.now - 1) }
{
    match scan(text) {
        Scan::LineEnd(rest) => Some(rest),
        Scan::TextEnd => Some(&text[text.len()..]),
        Scan::Number(_, _) | Scan::Word(_, _) => None,
    }
}

/// What stands behind the line, if a line feed ends it.
pub fn skip_line(text: &[u8]) -> Option<&[u8]>
    ensures is { option_map (λ x. x.now) result ≡ cond (fed text.now) (Some (behind_line text.now)) None }
    ensures shorter { IfSome result (λ x. length x.now < length text.now) }
    ensures last { IfNone result (behind_line text.now ≡ []) }
{
    let mut rest = text;
    while let [first, behind @ ..] = rest {
        if *first == b'\n' {
            return Some(behind);
        }
        rest = behind;
    }
    None
}
