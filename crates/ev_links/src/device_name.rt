//! The names of network devices.
ghost use Rattle.std.specs.Prelude.{◌≡◌, ◌==◌, position};
ghost use Rattle.std.specs.List.{list_all};
ghost use Rattle.ev_links.specs.DeviceName.{is_name_octet, is_device_name, device_of_text, text_of};

/// The maximum number of octets in a name: one fewer than the system's `IFNAMSIZ`.
const LONGEST_NAME: usize = 15;

/// The name of a network device, in the 16 octets in which the system has it: those of its text,
/// and zeros behind them.
#[derive(Clone, Copy, Debug, PartialEq, Eq)]
pub struct DeviceName {
    octets: [u8; 16],
}

/// Returns `true` if a name may have this octet.
fn is_name_octet(octet: u8) -> bool
    ensures { result ≡ is_name_octet octet }
{
    octet.is_ascii_alphanumeric() || octet == b'.' || octet == b'-' || octet == b'_'
}

/// Returns `true` if a name may have each of these octets.
fn are_name_octets(text: &[u8]) -> bool
    ensures { result ≡ list_all is_name_octet text.now }
{
    text.iter().all(|octet| is_name_octet(*octet))
}

/// Returns `true` if the text is the name of a device.
fn is_device_name(text: &[u8]) -> bool
    ensures { result ≡ is_device_name text.now }
{
    0 < text.len() && text.len() <= LONGEST_NAME && are_name_octets(text)
}

/// Returns the number of octets before the first zero, or `None` if there is no zero.
fn first_zero(octets: &[u8]) -> Option<usize>
    ensures { result ≡ position (λ b. b == 0) octets.now }
{
    octets.iter().position(|octet| *octet == 0)
}

impl DeviceName {
    /// Returns the name that a text spells: 1 to 15 letters, digits, full stops, hyphens and
    /// underscores. The system has other names, too: `None` for these. It has no device with the
    /// name `.` or `..`, which are read.
    pub fn read_text(text: &[u8]) -> Option<Self>
        ensures { result ≡ device_of_text text.now }
    {
        if !is_device_name(text) {
            return None;
        }
        let mut octets = [0u8; 16];
        octets[..text.len()].copy_from_slice(text);
        Some(DeviceName { octets })
    }

    /// Returns the text of the name.
    pub fn text(&self) -> &[u8]
        ensures { result.now ≡ text_of self.now }
    {
        let len = first_zero(&self.octets).unwrap_or(16);
        &self.octets[..len]
    }
}
