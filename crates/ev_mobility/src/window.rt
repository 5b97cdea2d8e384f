//! The window in which an address moves (RFC 7432, section 15.1): it lasts 180 seconds from its
//! first move, and its fifth move freezes the address.
ghost use Rattle.std.specs.Prelude.{◌≡◌};
ghost use Rattle.ev_mobility.specs.Window.{one_more, runs, count_with, is_fifth, after_move, is_frozen};

/// The length of a window in seconds.
const LENGTH: u64 = 180;

/// The summary of the moves of an address since its last thaw.
#[derive(Clone, Copy, Debug, PartialEq, Eq)]
pub(crate) struct Window {
    /// The second at which the newest window started.
    pub(crate) start: u64,
    /// The number of moves of that window, counted up to 6.
    pub(crate) count: u8,
    /// `true` if some window had five moves.
    pub(crate) frozen: bool,
}

/// Returns one more, counted up to 6: only the fifth move of a window matters.
fn one_more(count: u8) -> u8
    ensures { result ≡ one_more count }
{
    if count < 6 { count + 1 } else { 6 }
}

/// Returns `true` if a move at the second belongs to the window.
fn runs(window: &Window, second: u64) -> bool
    ensures { result ≡ runs window.now second }
{
    second < window.start || second - window.start < LENGTH
}

/// Returns the number of moves of the newest window after one at this second.
fn count_with(window: &Option<Window>, second: u64) -> u8
    ensures { result ≡ count_with window.now second }
{
    match window {
        Some(window) if runs(window, second) => one_more(window.count),
        _ => 1,
    }
}

/// Returns `true` if a move at this second is the fifth of its window.
pub(crate) fn is_fifth(window: &Option<Window>, second: u64) -> bool
    ensures { result ≡ is_fifth window.now second }
{
    count_with(window, second) == 5
}

/// Returns `true` if the address is frozen.
pub(crate) fn is_frozen(window: &Option<Window>) -> bool
    ensures { result ≡ is_frozen window.now }
{
    match window {
        Some(window) => window.frozen,
        None => false,
    }
}

/// Returns the window after a move at this second.
pub(crate) fn after_move(window: &Option<Window>, second: u64) -> Window
    ensures { result ≡ after_move window.now second }
{
    let start = match window {
        Some(window) if runs(window, second) => window.start,
        _ => second,
    };
    Window {
        start,
        count: count_with(window, second),
        frozen: is_frozen(window) || is_fifth(window, second),
    }
}
