//! What is in a text at a depth of parentheses.
ghost use Rattle.std.specs.Prelude.{◌≡◌, false};
ghost use Rattle.f77_forms.specs.Depth as spec;

/// Whether a byte is at a depth of parentheses, outside character constants, before a closing parenthesis at that
/// depth (ANSI X3.9-1978, section 4.8).
pub fn has_at_depth(byte: u8, at: usize, text: &[u8]) -> bool
    ensures { result ≡ spec.has_at_depth byte at false 0 text.now }
{
    let mut inside = false;
    let mut depth = 0;
    let mut rest = text;
    while let Some((next, after)) = rest.split_first() {
        if inside {
            inside = *next != b'\'';
        } else if *next == b'\'' {
            inside = true;
        } else if *next == b'(' {
            depth += 1;
        } else if *next == b')' {
            if depth <= at {
                return false;
            }
            depth -= 1;
        } else if *next == byte && depth == at {
            return true;
        }
        rest = after;
    }
    false
}
