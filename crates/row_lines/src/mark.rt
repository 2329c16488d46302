//! What a line of a row file is.

/// What a line of a row file is, by its first byte. Remarks, which begin with `#`, have no mark.
#[derive(Clone, Copy, Debug, PartialEq, Eq)]
pub enum Mark {
    /// `@`: the name of a row, or of a group of cases.
    Name,
    /// `<`: a line of the input.
    Input,
    /// `~`: a line of the schedule.
    Schedule,
    /// `$`: the words of a command.
    Command,
    /// `*`: calls that fail.
    Failing,
    /// `=`: how a run ends.
    End,
    /// `>`: a line that is printed, or shown.
    Printed,
    /// `!`: a line of the notes.
    Note,
    /// `&`: a line of `order`.
    Ordered,
    /// A line of source: `\`, or any byte that is no mark.
    Source,
}

/// How the text of a line is written.
#[derive(Clone, Copy)]
pub enum Form {
    /// Words that follow the mark, without the blanks at both ends. It gets no LF.
    Words,
    /// Bytes that follow the mark, with escapes. It gets an LF, unless `\.` ends it.
    Escaped,
    /// The whole line as it is. It gets an LF.
    Plain,
}

impl Mark {
    /// The mark of a line that begins with this byte.
    pub const fn of(first: u8) -> Mark {
        match first {
            b'@' => Mark::Name,
            b'<' => Mark::Input,
            b'~' => Mark::Schedule,
            b'$' => Mark::Command,
            b'*' => Mark::Failing,
            b'=' => Mark::End,
            b'>' => Mark::Printed,
            b'!' => Mark::Note,
            b'&' => Mark::Ordered,
            _ => Mark::Source,
        }
    }

    /// How the text of a line with this mark is written, which for source its first byte says.
    pub const fn form(self, first: u8) -> Form {
        match self {
            Mark::Name | Mark::Command | Mark::Failing | Mark::End => Form::Words,
            Mark::Input | Mark::Schedule | Mark::Printed | Mark::Note | Mark::Ordered => {
                Form::Escaped
            }
            Mark::Source => {
                if first == b'\\' {
                    Form::Escaped
                } else {
                    Form::Plain
                }
            }
        }
    }
}
