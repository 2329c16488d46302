//! The input of READ (ANSI X3.9-1978, section 12.8; list-directed input, section 13.6, is this project's own).
ghost use Rattle.std.specs.Prelude.{◌≤◌, length};

use crate::number::{number, separators, word_length};
use f77_ast::fault::Fault;
use hyb_base::bytes::Bytes;

/// The bytes of an input, and how far they have been read.
///
/// Its numbers have blanks, commas, CR and LF between them.
#[derive(Drop)]
pub struct Input {
    bytes: Bytes,
    at: usize,
    ghost within: { at ≤ length bytes },
}

impl Input {
    ghost use Rattle.std.specs.Prelude.{◌≡◌, ◌≢◌, ◌↔◌, ◌⊎◌, [], Err, IfOk, IfErr, OnErr};
    ghost use Rattle.f77_ast.specs.declared.fault.Fault.TheVariants.{InputEnd, InputForm};
    ghost use Rattle.f77_io.specs.Input.{left_of};
    ghost use Rattle.f77_io.specs.Number.{IsNumber, number_of, after_separators, word_at, after_word, taken_by, taken_of, TestsNumbers};

    /// An input of which nothing has been read.
    pub fn new(bytes: Bytes) -> Input
        ensures { left_of result ≡ bytes }
    {
        Input { bytes, at: 0 }
    }

    /// Reads the next number: skips blanks, commas, CR and LF, then takes an optional sign and digits up to the next
    /// of these or the end.
    ///
    /// `InputEnd` exactly where nothing else is left, and `InputForm` exactly where what comes next is no such number
    /// or does not fit 64 bits; nothing has been read then. So what it answers and leaves is `taken_of` what is left.
    #[tactic(auto, using(crate::proofs::Tests::is_number_decides))]
    pub fn next_number(&mut self) -> Result<i64, Fault>
        ensures ok { IfOk result (λ v. IsNumber (word_at (after_separators (left_of self.old)))
            × (v ≡ number_of (word_at (after_separators (left_of self.old))))
            × (left_of self.new ≡ after_word (after_separators (left_of self.old)))) }
        ensures err { OnErr result (left_of self.new ≡ left_of self.old) }
        ensures end { (result ≡ Err InputEnd) ↔ (after_separators (left_of self.old) ≡ []) }
        ensures form { (result ≡ Err InputForm) ↔ (after_separators (left_of self.old) ≢ []) × ¬ (IsNumber (word_at (after_separators (left_of self.old)))) }
        ensures fault { IfErr result (λ fault. (fault ≡ InputEnd) ⊎ (fault ≡ InputForm)) }
        ensures test { TestsNumbers }
        ensures taken { taken_by result (left_of self.new) ≡ taken_of (left_of self.old) }
    {
        let left = &self.bytes.as_slice()[self.at..];
        let start = separators(left);
        let from = &left[start..];
        if from.is_empty() {
            return Err(Fault::InputEnd);
        }
        let end = word_length(from);
        match number(&from[..end]) {
            None => Err(Fault::InputForm),
            Some(value) => {
                self.at += start + end;
                Ok(value)
            }
        }
    }
}
