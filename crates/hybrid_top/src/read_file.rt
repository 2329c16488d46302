//! Files that are read whole.
ghost use Rattle.std.specs.Prelude.{◌≡◌, ◌≢◌, ◌+◌, ◌<◌, ◌≤◌, length, IfOk, OnOk, IsTrue, IsErrOf};
ghost use Rattle.hyb_base.specs.Count.{next_count, Rose};
ghost use Rattle.hyb_outside.specs.FilesSeen.{IsEnd};
ghost use Rattle.hybrid_top.specs.Reading.{IsWhole, IsTooLong, Follows, Keeps};

use hyb_base::bytes::Bytes;
use hyb_base::no_memory::NoMemory;
use hyb_outside::failed::Failed;
use hyb_outside::files::Files;
use std::alloc::{AllocError, Global};

/// The greatest number of bytes of a file.
const FILE_LIMIT: usize = 1_048_576;

/// The number of bytes that are asked for at once.
const BUFFER_BYTES: usize = 65_536;

/// Why a file wasn't read to its end.
#[derive(Clone, Copy, Debug, PartialEq, Eq)]
pub enum ReadError {
    /// A read failed.
    Fault,
    /// The file has more bytes than a file may have.
    TooLong,
    /// No memory was to be had.
    NoMemory,
}

impl From<NoMemory> for ReadError {
    ghost use Rattle.std.specs.Prelude.{◌≡◌};
    ghost use Rattle.hybrid_top.specs.declared.read_file.ReadError.TheVariants as error;

    ghost from_gives = { λ _ e. e ≡ error.NoMemory };

    fn from(_error: NoMemory) -> ReadError {
        ReadError::NoMemory
    }
}

impl From<AllocError> for ReadError {
    ghost use Rattle.std.specs.Prelude.{◌≡◌};
    ghost use Rattle.hybrid_top.specs.declared.read_file.ReadError.TheVariants as error;

    ghost from_gives = { λ _ e. e ≡ error.NoMemory };

    fn from(_error: AllocError) -> ReadError {
        ReadError::NoMemory
    }
}

impl From<Failed> for ReadError {
    ghost use Rattle.std.specs.Prelude.{◌≡◌};
    ghost use Rattle.hybrid_top.specs.declared.read_file.ReadError.TheVariants as error;

    ghost from_gives = { λ _ e. e ≡ error.Fault };

    fn from(_failed: Failed) -> ReadError {
        ReadError::Fault
    }
}

/// Adds the next bytes of a file, as many as the buffer takes at most, and answers how many: 0 at its end.
fn read_on<F: Files>(
    name: &[u8],
    files: &mut F,
    buffer: &mut [u8],
    bytes: &mut Bytes,
) -> Result<usize, ReadError>
    requires allowed { IsTrue ((F.seen files.old).may_read name.now) }
    requires room { 0 < length buffer.old }
    ensures follows { OnOk result (Follows ((F.seen files.old).content name.now) bytes.old → Follows ((F.seen files.old).content name.now) bytes.new) }
    ensures more { IfOk result (λ given. length bytes.new ≡ length bytes.old + given) }
    ensures end { IfOk result (λ given. given ≡ 0 → IsEnd ((F.seen files.old).content name.now) (length bytes.new)) }
    ensures at_end { IfOk result (λ given. given ≡ 0 → (F.seen files.new).ends ≡ next_count (F.seen files.old).ends) }
    ensures before_end { IfOk result (λ given. given ≢ 0 → (F.seen files.new).ends ≡ (F.seen files.old).ends) }
    ensures no_end { IsErrOf result ReadError.Fault → (F.seen files.new).ends ≡ (F.seen files.old).ends }
    ensures fault { IsErrOf result ReadError.Fault → Rose (F.seen files.old).faults (F.seen files.new).faults }
    ensures not_too_long { IsErrOf result ReadError.TooLong → ⊥ }
    ensures keeps { Keeps (F.seen files.old) (F.seen files.new) }
{
    let from = bytes.len() as u64;
    let given = files.read_at(name, from, buffer)?;
    let (next, _rest) = buffer.split_at(given);
    bytes.push_slice(next)?;
    Ok(given)
}

/// The bytes of a file, from its start to its end.
///
/// The file is read until a read gives nothing, or more bytes came than a file may have.
pub fn read_file<F: Files>(alloc: Global, name: &[u8], files: &mut F) -> Result<Bytes, ReadError>
    requires { IsTrue ((F.seen files.old).may_read name.now) }
    ensures whole { IfOk result (IsWhole ((F.seen files.old).content name.now)) }
    ensures end { OnOk result ((F.seen files.new).ends ≡ next_count (F.seen files.old).ends) }
    ensures fault { IsErrOf result ReadError.Fault → Rose (F.seen files.old).faults (F.seen files.new).faults }
    ensures no_end { IsErrOf result ReadError.Fault → (F.seen files.new).ends ≡ (F.seen files.old).ends }
    ensures no_end_yet { IsErrOf result ReadError.TooLong → (F.seen files.new).ends ≡ (F.seen files.old).ends }
    ensures too_long { IsErrOf result ReadError.TooLong → IsTooLong ((F.seen files.old).content name.now) }
    ensures keeps { Keeps (F.seen files.old) (F.seen files.new) }
{
    let mut buffer = vec![in alloc; 0u8; BUFFER_BYTES]?;
    let mut bytes = Bytes::new(alloc);
    while bytes.len() <= FILE_LIMIT {
        let given = read_on(name, files, &mut buffer, &mut bytes)?;
        if given == 0 {
            return Ok(bytes);
        }
    }
    Err(ReadError::TooLong)
}
