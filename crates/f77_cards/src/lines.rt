//! How a file is cut into lines.
ghost use Rattle.std.specs.Prelude.{◌≡◌, ◌≢◌, ◌<◌, ◌≤◌, ◌↔◌, ℕ, [], ◌∷◌, length, slice_index, IsNone, IfSome};
ghost use Rattle.f77_cards.specs.Lines.{lines_of, line_before};

/// The number of bytes before the first LF, or of all bytes where there is none.
fn line_length(bytes: &[u8]) -> usize
    ensures within { result ≤ length bytes.now }
    ensures before { (k : ℕ) → k < result → slice_index bytes.now k ≢ 10 }
    ensures feed { result < length bytes.now → slice_index bytes.now result ≡ 10 }
{
    for (place, byte) in bytes.iter().enumerate() {
        if *byte == b'\n' {
            return place;
        }
    }
    bytes.len()
}

/// What is before an LF, without a CR at its end.
fn without_return(line: &[u8]) -> &[u8]
    ensures { result.now ≡ line_before line.now }
{
    match line.split_last() {
        None => line,
        Some((last, front)) => { if *last == b'\r' { front } else { line } }
    }
}

/// The first line, without its LF and a CR directly before it, and what follows it: none exactly where there
/// are no bytes.
pub fn next_line(bytes: &[u8]) -> Option<(&[u8], &[u8])>
    ensures none { IsNone result ↔ (bytes.now ≡ []) }
    ensures lines { IfSome result (λ p. lines_of bytes.now ≡ p.0.now ∷ lines_of p.1.now) }
    ensures less { IfSome result (λ p. length p.1.now < length bytes.now) }
{
    if bytes.is_empty() {
        return None;
    }
    let end = line_length(bytes);
    let (before, after) = bytes.split_at(end);
    match after.split_first() {
        None => Some((before, after)),
        Some((_feed, rest)) => Some((without_return(before), rest)),
    }
}
