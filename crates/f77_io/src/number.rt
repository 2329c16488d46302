//! Numbers of an input, and what is between them.
ghost use Rattle.std.specs.Prelude.{◌≡◌, ◌≤◌, length, SomeIff};
ghost use Rattle.std.specs.List.{prefix_len, position_or_len};
ghost use Rattle.f77_io.specs.Number.{is_separator, IsNumber, number_of};

/// Whether a byte is a blank, a comma, a CR or an LF.
fn is_separator(byte: u8) -> bool
    ensures { result ≡ is_separator byte }
{
    byte == b' ' || byte == b',' || byte == b'\r' || byte == b'\n'
}

/// The number of separators at the start.
pub fn separators(bytes: &[u8]) -> usize
    ensures value { result ≡ prefix_len is_separator bytes.now }
    ensures within { result ≤ length bytes.now }
{
    for (i, byte) in bytes.iter().enumerate() {
        if !is_separator(*byte) {
            return i;
        }
    }
    bytes.len()
}

/// The number of bytes up to the next separator or the end.
pub fn word_length(bytes: &[u8]) -> usize
    ensures value { result ≡ position_or_len is_separator bytes.now }
    ensures within { result ≤ length bytes.now }
{
    for (i, byte) in bytes.iter().enumerate() {
        if is_separator(*byte) {
            return i;
        }
    }
    bytes.len()
}

/// The number of a word: none exactly where it is not an optional sign and digits, or does not fit 64 bits.
pub fn number(word: &[u8]) -> Option<i64>
    ensures { SomeIff result (IsNumber word.now) (number_of word.now) }
{
    match str::from_utf8(word) {
        Ok(text) => text.parse().ok(),
        Err(_) => None,
    }
}
