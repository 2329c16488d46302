//! The edge over real files.
ghost use Rattle.std.specs.Prelude.{◌≡◌, ◌≤◌, ◌↔◌, length, IfOk, IfSome, IsSome, IsTrue};

use crate::ends::count_end;
use crate::failed::Failed;
use crate::files::Files;
use std::io::{Read, Seek, SeekFrom};
use std::marker::Model;
use std::{fs, rt};

/// The greatest length of a name, in bytes. The system has no longer paths.
const LONGEST: usize = 4096;

/// Reads the files of the runtime's file system, and tells no content.
///
/// A name that isn't UTF-8 or has more than 4,096 bytes, a missing or unreadable file and a directory fail. The
/// file that was read last stays open, so that reading on in it neither opens nor seeks. It takes no memory.
#[derive(Drop)]
pub struct DiskFiles<R: rt::Files> {
    rt: R,
    last: Option<Opened<R::File>>,
    faults: u64,
    ends: u64,
}

/// An open file, with its name and the place at which its next read begins.
#[derive(Drop)]
struct Opened<F> {
    file: F,
    name: ShortName,
    at: u64,
}

/// The name of an open file, which contracts see as its bytes.
#[derive(Drop)]
struct ShortName {
    bytes: [u8; LONGEST],
    len: usize,
}

impl Model for ShortName {
    ghost use Rattle.std.specs.Prelude.{List, ℕ, ◌≤◌, take};

    ghost Value = { List ℕ };

    ghost view = { λ n. take n.len n.bytes };

    ghost invariant = { λ n. n.len ≤ 4096 };
}

impl ShortName {
    /// The name, or none exactly where it is too long.
    fn new(name: &[u8]) -> Option<ShortName>
        ensures fits { IsSome result ↔ (length name.now ≤ 4096) }
        ensures value { IfSome result (λ short. short ≡ name.now) }
    {
        if name.len() > LONGEST {
            return None;
        }
        let mut bytes = [0; LONGEST];
        bytes[..name.len()].copy_from_slice(name);
        Some(ShortName {
            bytes,
            len: name.len(),
        })
    }

    /// Whether it is this name.
    fn is(&self, name: &[u8]) -> bool
        ensures { IsTrue result ↔ (self.now ≡ name.now) }
    {
        &self.bytes[..self.len] == name
    }
}

impl<F: Read + Seek> Opened<F> {
    /// Reads from a place into the front of a buffer, and answers how many bytes.
    fn read_at(&mut self, from: u64, into: &mut [u8]) -> Result<usize, Failed>
        ensures { IfOk result (λ n. n ≤ length into.old) }
    {
        if self.at != from {
            self.file
                .seek(SeekFrom::Start(from))
                .map_err(|_error| Failed)?;
        }
        let given = self.file.read(into).map_err(|_error| Failed)?;
        self.at = from.saturating_add(given as u64);
        Ok(given)
    }
}

/// Opens a file at its beginning.
fn open<R: rt::Files>(rt: &R, name: &[u8]) -> Result<Opened<R::File>, Failed> {
    let short = ShortName::new(name).ok_or(Failed)?;
    let path = str::from_utf8(name).map_err(|_error| Failed)?;
    let file = fs::open(rt, path).map_err(|_error| Failed)?;
    Ok(Opened {
        file,
        name: short,
        at: 0,
    })
}

/// Reads a file, which is then the one that stays open. After an error none does.
fn read<R: rt::Files>(
    rt: &R,
    last: &mut Option<Opened<R::File>>,
    name: &[u8],
    from: u64,
    into: &mut [u8],
) -> Result<usize, Failed>
    ensures { IfOk result (λ n. n ≤ length into.old) }
{
    let mut opened = match last.take() {
        Some(opened) if opened.name.is(name) => opened,
        _ => open(rt, name)?,
    };
    let given = opened.read_at(from, into)?;
    *last = Some(opened);
    Ok(given)
}

impl<R: rt::Files> DiskFiles<R> {
    ghost use Rattle.std.specs.Prelude.{◌≡◌};
    ghost use Rattle.hyb_outside.specs.DiskFiles.{disk_files_seen};

    /// The files of a runtime, with no faults and no ends by now.
    pub fn new(rt: R) -> DiskFiles<R>
        ensures faults { (disk_files_seen result).faults ≡ 0 }
        ensures ends { (disk_files_seen result).ends ≡ 0 }
    {
        DiskFiles {
            rt,
            last: None,
            faults: 0,
            ends: 0,
        }
    }
}

impl<R: rt::Files> Files for DiskFiles<R> {
    ghost use Rattle.std.specs.Prelude.{◌≡◌, ◌<◌, ◌≤◌, ◌-◌, ◌^◌, length, IfOk, OnOk, OnErr, IsTrue};
    ghost use Rattle.hyb_base.specs.Count.{next_count, Rose};
    ghost use Rattle.hyb_outside.specs.FilesSeen.{FillsFrom, IsEnd, ends_after};
    ghost use Rattle.hyb_outside.specs.DiskFiles.{disk_files_seen};

    ghost seen = { disk_files_seen };

    /// Reads a file once.
    fn read_at(&mut self, name: &[u8], from: u64, into: &mut [u8]) -> Result<usize, Failed>
        requires { IsTrue ((disk_files_seen self.old).may_read name.now) }
        ensures content { (disk_files_seen self.new).content ≡ (disk_files_seen self.old).content }
        ensures may_read { (disk_files_seen self.new).may_read ≡ (disk_files_seen self.old).may_read }
        ensures within { IfOk result (λ n. n ≤ length into.old) }
        ensures gives { IfOk result (λ n. FillsFrom ((disk_files_seen self.old).content name.now) from n into.new) }
        ensures end { IfOk result (λ n. n ≡ 0 → 0 < length into.old → IsEnd ((disk_files_seen self.old).content name.now) from) }
        ensures ends { IfOk result (λ n. (disk_files_seen self.new).ends ≡ ends_after n (length into.old) (disk_files_seen self.old).ends) }
        ensures no_end { OnErr result ((disk_files_seen self.new).ends ≡ (disk_files_seen self.old).ends) }
        ensures cause { OnErr result (Rose (disk_files_seen self.old).faults (disk_files_seen self.new).faults) }
        ensures faults { (disk_files_seen self.old).faults ≤ (disk_files_seen self.new).faults }
        ensures more_ends { (disk_files_seen self.old).ends ≤ (disk_files_seen self.new).ends }
        ensures counted_faults { (disk_files_seen self.new).faults ≤ 2 ^ 64 - 1 }
        ensures counted_ends { (disk_files_seen self.new).ends ≤ 2 ^ 64 - 1 }

        // beyond the trait's: the exact count
        ensures ok { OnOk result ((disk_files_seen self.new).faults ≡ (disk_files_seen self.old).faults) }
        ensures failed { OnErr result ((disk_files_seen self.new).faults ≡ next_count (disk_files_seen self.old).faults) }
    {
        let faults = self.faults;
        let ends = self.ends;
        match read(&self.rt, &mut self.last, name, from, into) {
            Ok(given) => {
                self.ends = count_end(given, into.len(), ends);
                Ok(given)
            }
            Err(failed) => {
                self.faults = faults.saturating_add(1);
                Err(failed)
            }
        }
    }
}
