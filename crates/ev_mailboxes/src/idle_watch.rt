//! How long nothing has come over a link, or nothing was sent over it.
ghost use Rattle.std.specs.Prelude.{◌≡◌};
ghost use Rattle.ev_mailboxes.specs.IdleWatch.{new_idle, after_idle};

/// The datagrams of a link in one direction, as of the last second that passed.
#[derive(Clone, Copy, Debug, PartialEq, Eq)]
pub struct IdleWatch {
    /// The number of datagrams.
    pub count: u64,
    /// The seconds that have passed since the last one, or since the beginning if there was none.
    pub seconds: u64,
}

impl IdleWatch {
    /// Returns the watch of a link over which nothing came or was sent.
    pub fn new() -> Self
        ensures { result ≡ new_idle }
    {
        IdleWatch {
            count: 0,
            seconds: 0,
        }
    }

    /// Notes a second that passes, with the number of datagrams so far. The watch begins anew if
    /// the number has grown.
    pub fn second(&mut self, count: u64)
        ensures { self.new ≡ after_idle count self.old }
    {
        self.seconds = if self.count < count {
            0
        } else {
            self.seconds.saturating_add(1)
        };
        self.count = count;
    }
}
