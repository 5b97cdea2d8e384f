//! The state of the sends over a link: they fail, or work. A change is reported once.
ghost use Rattle.std.specs.Prelude.{◌≡◌};
ghost use Rattle.ev_mailboxes.specs.SendWatch.{new_watch, change_of, after_second};

/// The state of the sends over a link at the last second that passed.
#[derive(Clone, Copy, Debug, PartialEq, Eq)]
pub struct SendWatch {
    /// The number of sends that had worked.
    sent: u64,
    /// The number of sends that had failed.
    failed: u64,
    /// Whether a send failed in the last second with sends.
    was_bad: bool,
    /// Whether it was reported that sends fail.
    is_reported: bool,
}

impl SendWatch {
    /// Returns the watch of a link over which nothing was sent.
    pub fn new() -> Self
        ensures { result ≡ new_watch }
    {
        SendWatch {
            sent: 0,
            failed: 0,
            was_bad: false,
            is_reported: false,
        }
    }

    /// Notes a second that passes, with the numbers of sends that have worked and failed so far.
    /// Returns `Some(false)` if sends fail from now on: one failed in this second, and in the last
    /// second with sends before it. Returns `Some(true)` if they work again: sends were made in
    /// this second and none failed, after it was reported that they fail.
    pub fn second(&mut self, sent: u64, failed: u64) -> Option<bool>
        ensures change { result ≡ change_of sent failed self.old }
        ensures after { self.new ≡ after_second sent failed self.old }
    {
        let before = *self;
        self.sent = sent;
        self.failed = failed;
        if before.failed < failed {
            self.was_bad = true;
            self.is_reported = before.is_reported || before.was_bad;
            return if before.was_bad && !before.is_reported {
                Some(false)
            } else {
                None
            };
        }
        if before.sent < sent {
            self.was_bad = false;
            self.is_reported = false;
            return if before.is_reported { Some(true) } else { None };
        }
        None
    }
}
