//! What comes next in a text.
ghost use Rattle.std.specs.Prelude.{◌≡◌};
ghost use Rattle.std.specs.Char.{is_ascii_digit};
ghost use Rattle.f77_ast.specs.Name.{is_letter};
ghost use Rattle.f77_forms.specs.Form.{passes};
ghost use Rattle.f77_parts.specs.Parts.{is_any, is_apostrophe};

use f77_exprs::reader::Reader;

/// Whether any byte comes next.
pub fn sees_any(reader: &Reader<'_>) -> bool
    ensures { result ≡ passes is_any reader.now }
{
    !reader.is_empty()
}

/// Whether an apostrophe comes next.
pub fn sees_apostrophe(reader: &Reader<'_>) -> bool
    ensures { result ≡ passes is_apostrophe reader.now }
{
    matches!(reader.rest(), [b'\'', ..])
}

/// Whether a digit comes next.
pub fn sees_digit(reader: &Reader<'_>) -> bool
    ensures { result ≡ passes is_ascii_digit reader.now }
{
    matches!(reader.rest(), [b'0'..=b'9', ..])
}

/// Whether a letter comes next.
pub fn sees_letter(reader: &Reader<'_>) -> bool
    ensures { result ≡ passes is_letter reader.now }
{
    matches!(reader.rest(), [b'A'..=b'Z', ..])
}
