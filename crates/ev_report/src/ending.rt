//! How the reading of a stream ends.
ghost use Rattle.std.specs.Prelude.{◌≡◌};

/// How a reading ended.
#[derive(Clone, Copy, Debug)]
pub enum Ending {
    /// The reader came to its end.
    Ended,
    /// A read failed.
    Failed,
    /// The input shows this fault.
    Faulty(u8),
    /// It gave octets at each of the reads that a run makes at most.
    Unended,
}

impl Ending {
    ghost use Rattle.ev_report.specs.Notes.{has_stopped};

    /// Whether the reader failed, or gave no end.
    pub fn has_stopped(self) -> bool
        ensures { result ≡ has_stopped self }
    {
        match self {
            Ending::Failed | Ending::Unended => true,
            Ending::Ended | Ending::Faulty(_) => false,
        }
    }
}
