// How the program ends.
ghost use Rattle.std.specs.Prelude.{◌≡◌};

/// The status of the program; their numbers are 0 to 7 in this order.
#[derive(Clone, Copy, Debug, PartialEq, Eq)]
pub enum Status {
    /// Nothing flows.
    Clean,
    /// Something does; the report has it.
    Found,
    /// The words or the program are wrong.
    Refused,
    /// The program uses what the subset leaves out.
    Unsupported,
    /// A quantity passes its limit.
    Bound,
    /// A folder or a file couldn't be read.
    ReadFault,
    /// The output couldn't be written.
    WriteFault,
    /// There was no memory left; nothing was written.
    Memory,
}

impl Status {
    ghost use Rattle.argot_run.specs.Codes.{code_of};

    /// The number with which the program ends.
    pub fn code(self) -> u8
        ensures { result ≡ code_of self }
    {
        self as u8
    }
}
