//! The smallest parts of statements: references, names, labels, digits, constants and letters.
ghost use Rattle.std.specs.Prelude.{◌≡◌, ◌≤◌, ◌≤ℤ◌, pos, length, IfOk, SomeIff, IsOkUnless};
ghost use Rattle.hyb_base.specs.Decimal.{IsDigits, value_of};
ghost use Rattle.f77_ast.specs.Name.{is_letter};
ghost use Rattle.f77_exprs.specs.Read.{Reads};
ghost use Rattle.f77_forms.specs.Form.{read};
ghost use Rattle.f77_forms.specs.Form as form;

use f77_ast::expr::{Expr, Ref};
use f77_ast::stmt::Label;
use f77_exprs::grammar::reference;
use f77_exprs::operand::literal;
use f77_exprs::reader::{Reader, number_of};
use f77_exprs::unread::Unread;
use hyb_base::bytes::Bytes;
use std::alloc::Global;

/// Takes a word, which must come next: `Unspelled` exactly where it doesn't.
pub fn expect_word(reader: &mut Reader<'_>, word: &[u8]) -> Result<(), Unread>
    ensures value { Reads (form.expect_word word.now reader.old) result reader.new }
    ensures within { length reader.new ≤ length reader.old }
    ensures err { IsOkUnless result Unread.Unspelled }
{
    if reader.eat_word(word) {
        Ok(())
    } else {
        Err(Unread::Unspelled)
    }
}

/// ref (ANSI X3.9-1978, sections 2.2, 5.3, 5.7.1 and 15.2)
pub fn a_ref(alloc: Global, reader: &mut Reader<'_>, depth: usize) -> Result<Ref, Unread>
    ensures value { Reads (read depth form.a_ref reader.old) result reader.new }
    ensures within { length reader.new ≤ length reader.old }
{
    match reference(alloc, reader, depth)? {
        Expr::Ref(found) => Ok(found),
        _ => Err(Unread::Unspelled),
    }
}

/// ref without a substring
pub fn a_whole_ref(alloc: Global, reader: &mut Reader<'_>, depth: usize) -> Result<Ref, Unread>
    ensures value { Reads (read depth form.a_whole_ref reader.old) result reader.new }
    ensures within { length reader.new ≤ length reader.old }
{
    let found = a_ref(alloc, reader, depth)?;
    if found.part.is_none() {
        Ok(found)
    } else {
        Err(Unread::Unspelled)
    }
}

/// A number of five digits at most.
fn small(value: i64) -> Option<u32>
    ensures { result ≡ form.small value }
{
    if value < 0 || value > 99_999 {
        return None;
    }
    u32::try_from(value).ok()
}

/// The value of digits: none exactly where there is none, or they are more than five.
fn short_value(digits: &[u8]) -> Option<u32>
    ensures { SomeIff result (IsDigits digits.now × (length digits.now ≤ 5)) (value_of digits.now) }
{
    if digits.len() > 5 {
        return None;
    }
    match number_of(digits) {
        Some(value) => small(value),
        None => None,
    }
}

/// label: 1 to 5 digits, not all 0 (ANSI X3.9-1978, section 3.4)
pub fn a_label(reader: &mut Reader<'_>) -> Result<Label, Unread>
    ensures value { Reads (form.label reader.old) result reader.new }
    ensures within { length reader.new ≤ length reader.old }
    ensures err { IsOkUnless result Unread.Unspelled }
{
    match short_value(reader.take_digits()) {
        Some(value) if value > 0 => Ok(value),
        _ => Err(Unread::Unspelled),
    }
}

/// 1 to 5 digits (ANSI X3.9-1978, section 11.12)
pub fn some_digits(reader: &mut Reader<'_>) -> Result<u32, Unread>
    ensures value { Reads (form.short reader.old) result reader.new }
    ensures within { length reader.new ≤ length reader.old }
    ensures err { IsOkUnless result Unread.Unspelled }
{
    match short_value(reader.take_digits()) {
        Some(value) => Ok(value),
        None => Err(Unread::Unspelled),
    }
}

/// digits of value at most 2^63 - 1 (ANSI X3.9-1978, section 4.3.1)
pub fn a_number(reader: &mut Reader<'_>) -> Result<i64, Unread>
    ensures value { Reads (form.int reader.old) result reader.new }
    ensures natural { IfOk result (λ v. pos 0 ≤ℤ v) }
    ensures within { length reader.new ≤ length reader.old }
    ensures err { IsOkUnless result Unread.Unspelled }
{
    match number_of(reader.take_digits()) {
        Some(value) => Ok(value),
        None => Err(Unread::Unspelled),
    }
}

/// a character constant of at least one character (ANSI X3.9-1978, section 4.8.1)
pub fn a_constant(alloc: Global, reader: &mut Reader<'_>) -> Result<Bytes, Unread>
    ensures value { Reads (form.quoted reader.old) result reader.new }
    ensures within { length reader.new ≤ length reader.old }
{
    match literal(alloc, reader)? {
        Some(Expr::Chars(bytes)) => Ok(bytes),
        _ => Err(Unread::Unspelled),
    }
}

/// Whether a byte is an upper-case letter.
fn is_letter(byte: u8) -> bool
    ensures { result ≡ is_letter byte }
{
    (b'A'..=b'Z').contains(&byte)
}

/// letter (ANSI X3.9-1978, section 3.1.1)
pub fn a_letter(reader: &mut Reader<'_>) -> Result<u8, Unread>
    ensures value { Reads (form.letter reader.old) result reader.new }
    ensures within { length reader.new ≤ length reader.old }
    ensures err { IsOkUnless result Unread.Unspelled }
{
    match reader.next_byte() {
        Some(byte) if is_letter(byte) => Ok(byte),
        _ => Err(Unread::Unspelled),
    }
}
