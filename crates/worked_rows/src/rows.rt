//! The rows of a file.

use crate::draft::Draft;
use crate::row::Row;
use crate::unreadable::{Cause, Unreadable};
use row_lines::line::Line;
use row_lines::lines;
use row_lines::mark::Mark;
use std::alloc::{AllocError, Global};

/// The rows of a file in their order, each of them read or not. Lines before the first name are one that isn't, and so is a
/// file without rows.
pub fn rows(alloc: Global, file: &[u8]) -> Result<Vec<Result<Row, Unreadable>>, AllocError> {
    let mut reader = Reader {
        rows: Vec::new(alloc),
        draft: None,
    };
    for line in lines(alloc, file)? {
        match line {
            Ok(line) => reader.take(alloc, line)?,
            Err(bad) => reader.refuse(alloc, bad.number, Cause::Escape(bad.cause)),
        }
    }
    reader.finish()
}

/// The rows so far, and the one whose lines are being read.
#[derive(Drop)]
struct Reader {
    rows: Vec<Result<Row, Unreadable>>,
    draft: Option<Draft>,
}

impl Reader {
    fn take(&mut self, alloc: Global, line: Line) -> Result<(), AllocError> {
        if line.mark == Mark::Name {
            self.end_row()?;
            self.draft = Some(Draft::new(alloc, line.text, line.number));
            return Ok(());
        }
        let mut draft = self.take_draft(alloc, line.number);
        draft.take(alloc, line)?;
        self.draft = Some(draft);
        Ok(())
    }

    fn refuse(&mut self, alloc: Global, number: u64, cause: Cause) {
        let mut draft = self.take_draft(alloc, number);
        draft.refuse(number, cause);
        self.draft = Some(draft);
    }

    /// The row whose lines are being read; before the first name one that can't be read.
    fn take_draft(&mut self, alloc: Global, number: u64) -> Draft {
        match self.draft.take() {
            Some(draft) => draft,
            None => Draft::unnamed(alloc, number),
        }
    }

    fn end_row(&mut self) -> Result<(), AllocError> {
        if let Some(draft) = self.draft.take() {
            self.rows.push(draft.finish())?;
        }
        Ok(())
    }

    fn finish(mut self) -> Result<Vec<Result<Row, Unreadable>>, AllocError> {
        self.end_row()?;
        if self.rows.is_empty() {
            self.rows.push(Err(Unreadable {
                number: 1,
                cause: Cause::NoRows,
            }))?;
        }
        Ok(self.rows)
    }
}
