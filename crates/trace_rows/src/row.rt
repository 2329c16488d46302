//! A row.

/// What a row is of, and its iterations or its sets.
#[derive(Drop)]
pub struct Row {
    /// The number of its first line in the file.
    pub number: u64,
    /// Its name.
    pub name: Vec<u8>,
    /// The regions, where it is a row of traces.
    pub regions: Option<Vec<u8>>,
    /// The call, where it is a row of sets.
    pub call: Option<Vec<u8>>,
    /// The iterations that end, or the sets.
    pub lists: Vec<Vec<u8>>,
    /// The iteration that is open.
    pub open: Option<Vec<u8>>,
    /// What is wanted, line by line.
    pub wanted: Vec<Vec<u8>>,
}
