//! Why a call of a book is refused.
ghost use Rattle.std.specs.Prelude.{◌≡◌};
ghost use Rattle.ev_book.specs.Refusal.{refusal_number};

use ev_edge::Refusal;

/// Why a call of a book is refused.
#[derive(Clone, Copy, Debug, PartialEq, Eq)]
pub enum BookRefusal {
    /// The pass's count or mark differs from the book's. The call is not counted.
    PassStrange,
    /// The pass has had as many calls as a pass can have, 2^55. The call isn't counted.
    PassSpent,
    /// There is no memory for the journal. The call is counted, and nothing else changed.
    NoRoom,
    /// The edge refuses the event. The call is counted, and nothing else changed.
    Edge(Refusal),
}

impl BookRefusal {
    /// The refusal's number among those of an edge and its book, or of the part that refuses.
    pub fn number(self) -> u8
        ensures { result ≡ refusal_number self }
    {
        match self {
            BookRefusal::NoRoom => 15,
            BookRefusal::PassSpent => 20,
            BookRefusal::PassStrange => 23,
            BookRefusal::Edge(refusal) => refusal.number(),
        }
    }
}
