//! The status with which a program ends.
ghost use Rattle.std.specs.Prelude.{◌≡◌};
ghost use Rattle.ev_report.specs.Status.{code_of, is_done, is_broken};

/// The status with which a program ends. Of several that apply the last one here counts.
#[derive(Clone, Copy, Debug)]
pub enum Status {
    /// Everything succeeded: 0.
    Done,
    /// The input has a fault: 1.
    Broken,
    /// The arguments are invalid, or a file that they name has a fault: 2.
    Usage,
    /// Memory was refused: 3.
    Memory,
    /// A device failed: 4.
    Device,
}

impl Status {
    /// Returns the number with which the process exits.
    pub fn code(self) -> u8
        ensures { result ≡ code_of self }
    {
        match self {
            Status::Done => 0,
            Status::Broken => 1,
            Status::Usage => 2,
            Status::Memory => 3,
            Status::Device => 4,
        }
    }

    /// Returns `true` if everything succeeded.
    pub fn is_done(self) -> bool
        ensures { result ≡ is_done self }
    {
        matches!(self, Status::Done)
    }

    /// Returns `true` if the input has a fault, and nothing worse applies.
    pub fn is_broken(self) -> bool
        ensures { result ≡ is_broken self }
    {
        matches!(self, Status::Broken)
    }
}
