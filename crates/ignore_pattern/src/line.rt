//! The part of a line that its pattern is read from, and bytes without their last.

ghost use Rattle.std.specs.Prelude.{◌≡◌, ◌≤◌, ◌==◌, not, drop, length, if◌then◌else◌, true, false, IfNone, IfSome};
ghost use Rattle.std.specs.List.{prefix_len};
ghost use Rattle.ignore_pattern.specs.Ends.{without_last};
ghost use Rattle.bit_sets.specs.Texts.{ends_with};
ghost use Rattle.ignore_pattern.specs.Lines.{line_text, before_nul, without_spaces};

/// Returns the text of a line: the line without a carriage return at its end, up to its first NUL, and without the spaces
/// at its end. A space after a `\` that escapes it stays.
///
/// It takes a pass over the line.
///
/// ```
/// assert_eq!(rt; line_text(b"!a\\  \r"), b"!a\\ ".as_slice());
/// ```
#[tactic(auto, unfolding(crate::specs::Lines::line_text))]
pub fn line_text(line: &[u8]) -> &[u8]
    ensures { result.now ≡ line_text line.now }
{
    without_spaces(before_nul(without_last(b'\r', line)))
}

/// Returns the bytes without the last, if that is `byte`.
fn without_last(byte: u8, bytes: &[u8]) -> &[u8]
    ensures { result.now ≡ without_last byte bytes.now }
{
    before_last(byte, bytes).unwrap_or(bytes)
}

/// Returns the bytes before the last, if that is `c`.
pub fn before_last(c: u8, cs: &[u8]) -> Option<&[u8]>
    ensures some { IfSome result
        (λ front. (ends_with c cs.now ≡ true) × (front.now ≡ without_last c cs.now)) }
    ensures none { IfNone result ((ends_with c cs.now ≡ false) × (without_last c cs.now ≡ cs.now)) }
{
    match cs {
        [] => None,
        [front @ .., last] => { if c == *last { Some(front) } else { None } }
    }
}

/// Returns the bytes before the first NUL.
fn before_nul(line: &[u8]) -> &[u8]
    ensures { result.now ≡ before_nul line.now }
{
    line.split_at(count_before_nul(line)).0
}

/// Returns how many bytes are before the first NUL.
fn count_before_nul(line: &[u8]) -> usize
    ensures value { result ≡ prefix_len (λ c. not (c == 0)) line.now }
    ensures within { result ≤ length line.now }
{
    line.iter().take_while(|byte| !(**byte == 0)).count()
}

/// Returns the line without the spaces at its end. A space after a `\` that escapes it stays.
fn without_spaces(line: &[u8]) -> &[u8]
    ensures { result.now ≡ without_spaces line.now }
{
    let mut kept = 0;
    let mut rest = line;
    while let [byte, after @ ..] = rest {
        rest = after_byte(*byte, after);
        if *byte != b' ' {
            kept = line.len() - rest.len();
        }
    }
    line.split_at(kept).0
}

/// Returns the bytes after `byte`, which `after` follows: a `\` takes a next byte with it, if there is any.
fn after_byte(byte: u8, after: &[u8]) -> &[u8]
    ensures value { result.now ≡ (if byte == 92 then drop 1 after.now else after.now) }
    ensures within { length result.now ≤ length after.now }
{
    match after {
        [_, more @ ..] if byte == b'\\' => more,
        _ => after,
    }
}
