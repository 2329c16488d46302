//! Names with contents, in memory.
ghost use Rattle.std.specs.Prelude.{◌≡◌, [], length, position, OnOk, OnErr};
ghost use Rattle.std.specs.Option.{option_copied};
ghost use Rattle.std.specs.Str.{bytes_eq};
ghost use Rattle.hyb_outside.specs.Table.{content_of, Replaces, bytes_given, filled};

use hyb_base::bytes::Bytes;
use hyb_base::no_memory::NoMemory;
use std::alloc::Global;
use std::marker::Model;

/// A name with its content.
#[derive(Drop)]
pub struct Named {
    pub name: Bytes,
    pub content: Bytes,
}

/// Names with contents, each name at most once.
#[derive(Drop)]
pub struct Table {
    alloc: Global,
    rows: Vec<Named>,
}

impl Model for Table {
    ghost use Rattle.std.specs.Prelude.{List};
    ghost use Rattle.hyb_outside.specs.declared.table.Named.{Named};

    ghost Value = { List Named };

    ghost view = { λ t. t.rows.items };
}

impl Table {
    /// No names. It takes no memory.
    pub fn new(alloc: Global) -> Table
        ensures { result ≡ [] }
    {
        Table {
            alloc,
            rows: Vec::new(alloc),
        }
    }

    /// Gives a name its content, in place of what it had. After an error the table is as before.
    pub fn add(&mut self, name: &[u8], content: &[u8]) -> Result<(), NoMemory>
        ensures ok { OnOk result (Replaces name.now content.now (content_of self.old) (content_of self.new)) }
        ensures err { OnErr result (self.new ≡ self.old) }
    {
        let content = Bytes::from_slice(self.alloc, content)?;
        match self.place_of(name) {
            Some(place) => {
                let row = &mut self.rows[place];
                row.content = content;
            }
            None => {
                let name = Bytes::from_slice(self.alloc, name)?;
                self.rows.push(Named { name, content })?;
            }
        }
        Ok(())
    }

    /// The first row with a name.
    fn place_of(&self, name: &[u8]) -> Option<usize>
        ensures { result ≡ position (λ row. bytes_eq row.name name.now) self.now }
    {
        self.rows.iter().position(|row| row.name.as_slice() == name)
    }

    /// The content of a name: none exactly where no row has it.
    pub fn find(&self, name: &[u8]) -> Option<&[u8]>
        ensures { option_copied result ≡ content_of self.now name.now }
    {
        for row in &self.rows {
            if row.name.as_slice() == name {
                return Some(row.content.as_slice());
            }
        }
        None
    }
}

/// Gives the bytes of a content from a place, counted from 0: as many as the buffer holds and the content has.
pub fn give(content: &[u8], from: u64, into: &mut [u8]) -> usize
    ensures given { result ≡ bytes_given content.now from (length into.old) }
    ensures buffer { into.new ≡ filled content.now from result into.old }
{
    let start = content.len().min(from as usize);
    let rest = &content[start..];
    let given = into.len().min(rest.len());
    into[..given].copy_from_slice(&rest[..given]);
    given
}
