//! How a text is cut at LF into lines, and a line at blanks.
ghost use Rattle.std.specs.Prelude.{◌≡◌, ◌≢◌, ◌<◌, ◌≤◌, ◌↔◌, ◌==◌, ℕ, [], ◌∷◌, length, slice_index, IsNone, IfNone, IfSome};
ghost use Rattle.std.specs.List.{slice_split};
ghost use Rattle.std.specs.Option.{option_copied};
ghost use Rattle.std.specs.Str.Lines.{lines, strip_carriage_return};
ghost use Rattle.sched_text.specs.Form.{parts_after};

/// The number of bytes before the first of this byte, or of all bytes where there is none.
fn length_before(bytes: &[u8], sign: u8) -> usize
    ensures within { result ≤ length bytes.now }
    ensures before { (k : ℕ) → k < result → slice_index bytes.now k ≢ sign }
    ensures found { result < length bytes.now → slice_index bytes.now result ≡ sign }
{
    for (place, byte) in bytes.iter().enumerate() {
        if *byte == sign {
            return place;
        }
    }
    bytes.len()
}

/// What is before the first of this byte, and what follows it; all bytes where there is none.
pub fn split_at_first(bytes: &[u8], sign: u8) -> (&[u8], Option<&[u8]>)
    ensures parts { slice_split (λ b. b == sign) bytes.now ≡ result.0.now ∷ parts_after sign (option_copied result.1) }
    ensures whole { IfNone result.1 (result.0.now ≡ bytes.now) }
    ensures less { IfSome result.1 (λ rest. length rest.now < length bytes.now) }
{
    let (before, from) = bytes.split_at(length_before(bytes, sign));
    match from.split_first() {
        None => (before, None),
        Some((_sign, rest)) => (before, Some(rest)),
    }
}

/// What is before an LF, without a CR at its end.
fn without_return(line: &[u8]) -> &[u8]
    ensures { result.now ≡ strip_carriage_return line.now }
{
    match line.split_last() {
        Some((b'\r', front)) => front,
        _ => line,
    }
}

/// The first line of a text, without its LF and a CR directly before it, and the text that follows: none exactly where
/// there are no bytes.
pub fn next_line(text: &[u8]) -> Option<(&[u8], &[u8])>
    ensures none { IsNone result ↔ (text.now ≡ []) }
    ensures lines { IfSome result (λ p. lines text.now ≡ p.0.now ∷ lines p.1.now) }
    ensures less { IfSome result (λ p. length p.1.now < length text.now) }
{
    if text.is_empty() {
        return None;
    }
    let (line, rest) = split_at_first(text, b'\n');
    match rest {
        None => Some((line, &[])),
        Some(rest) => Some((without_return(line), rest)),
    }
}
