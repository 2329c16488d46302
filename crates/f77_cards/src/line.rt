//! A line of a source file, by its columns (ANSI X3.9-1978, section 3.2).
ghost use Rattle.std.specs.Prelude.{◌≡◌, ◌≤◌, ◌++◌, drop, length};
ghost use Rattle.f77_cards.specs.Columns.{filled, label_field, text_field, is_blank, is_comment, is_comment_sign, is_initial, label_of, number_from};
ghost use Rattle.std.specs.List.{list_all, list_any};
ghost use Rattle.std.specs.Char.{is_ascii_digit};

use f77_ast::stmt::Label;

/// The number of columns of a line.
const COLUMNS: usize = 72;

/// A line of a source file.
#[derive(Drop)]
pub struct Line {
    /// Its number, counted from 1.
    pub number: u32,
    /// Columns 1 to 72, filled with blanks.
    pub columns: [u8; COLUMNS],
}

/// Columns 1 to 72 of a line: filled with blanks to column 72, and cut there.
pub fn filled(line: &[u8]) -> [u8; COLUMNS]
    ensures { result ≡ filled line.now }
{
    let mut columns = [b' '; COLUMNS];
    let (front, _past) = line.split_at(line.len().min(COLUMNS));
    fill(&mut columns, front);
    columns
}

/// Puts bytes into the first columns.
fn fill(columns: &mut [u8], front: &[u8])
    requires { length front.now ≤ length columns.old }
    ensures { columns.new ≡ front.now ++ drop (length front.now) columns.old }
{
    columns[..front.len()].copy_from_slice(front);
}

/// Whether a byte makes a comment line in column 1.
fn is_comment_sign(byte: u8) -> bool
    ensures { result ≡ is_comment_sign byte }
{
    byte == b'C' || byte == b'c' || byte == b'*'
}

/// Whether all bytes are blanks.
pub fn is_all_blank(bytes: &[u8]) -> bool
    ensures { result ≡ list_all is_blank bytes.now }
{
    bytes.iter().all(|byte| *byte == b' ')
}

/// Whether some byte is a digit.
pub fn has_digit(bytes: &[u8]) -> bool
    ensures { result ≡ list_any is_ascii_digit bytes.now }
{
    bytes.iter().any(|byte| byte.is_ascii_digit())
}

impl Line {
    /// Columns 1 to 5, where the label of an initial line is (ANSI X3.9-1978, section 3.4).
    pub fn label_field(&self) -> &[u8]
        ensures { result.now ≡ label_field self.now }
    {
        let (field, _rest) = self.columns.split_at(5);
        field
    }

    /// Columns 7 to 72, where the statement is.
    pub fn text_field(&self) -> &[u8]
        ensures { result.now ≡ text_field self.now }
    {
        let (_front, field) = self.columns.split_at(6);
        field
    }

    /// Whether it is a comment line: `C`, `c` or `*` in column 1, or blank in columns 1 to 72 (section 3.2.1).
    pub fn is_comment(&self) -> bool
        ensures { result ≡ is_comment self.now }
    {
        is_comment_sign(self.columns[0]) || is_all_blank(self.columns.as_slice())
    }

    /// Whether it is an initial line, where it is no comment: blank or `0` in column 6 (section 3.2.2). Any other is
    /// a continuation line (section 3.2.3).
    pub fn is_initial(&self) -> bool
        ensures { result ≡ is_initial self.now }
    {
        self.columns[5] == b' ' || self.columns[5] == b'0'
    }

    /// The label of an initial line: the number that the digits of columns 1 to 5 write; none where there is no
    /// digit (section 3.4).
    pub fn label(&self) -> Option<Label>
        ensures { result ≡ label_of self.now }
    {
        let field = self.label_field();
        if has_digit(field) {
            Some(number_of(field))
        } else {
            None
        }
    }
}

/// The number that the digits of a field of five columns write, without blanks and leading zeros.
fn number_of(field: &[u8]) -> u32
    requires { length field.now ≤ 5 }
    ensures { result ≡ number_from 0 field.now }
{
    let mut number = 0;
    for byte in field {
        if byte.is_ascii_digit() {
            number = number * 10 + u32::from(*byte - b'0');
        }
    }
    number
}
