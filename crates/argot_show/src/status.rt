// How the program ends.

/// The status of the program, with argot's numbers.
#[derive(Clone, Copy, Debug, PartialEq, Eq)]
pub enum Status {
    /// It printed what was asked for.
    Shown,
    /// The words are wrong, or the stage refuses the file.
    Refused,
    /// The file is beyond a bound.
    Bound,
    /// The file couldn't be read.
    ReadFault,
    /// The output couldn't be written.
    WriteFault,
    /// There was no memory left.
    Memory,
}

impl Status {
    /// The number with which the program ends.
    pub fn code(self) -> u8 {
        match self {
            Status::Shown => 0,
            Status::Refused => 2,
            Status::Bound => 4,
            Status::ReadFault => 5,
            Status::WriteFault => 6,
            Status::Memory => 7,
        }
    }
}
