//! Octets as hexadecimal digits.
ghost use Rattle.std.specs.Prelude.{◌≤◌, length};

use crate::script::digits::{are_hex_digits, octet_of};
use arrayvec::ArrayVec;

/// The maximum number of digits in a line.
const MOST_DIGITS: usize = 20_000;

/// The maximum number of octets that they spell.
const MOST_OCTETS: usize = 10_000;

/// Octets as a line spells them: pairs of lower case digits, at least one pair.
#[derive(Clone, Copy)]
pub struct Hex<'a> {
    /// The digits.
    pub digits: &'a [u8],
    ghost few: { length digits.now ≤ 20000 },
}

impl<'a> Hex<'a> {
    ghost use Rattle.std.specs.Prelude.{◌≡◌, option_map};
    ghost use Rattle.ev_script.specs.Script.{hex, octets_of};

    /// Reads the digits of a word: an even number of them, and nothing else.
    pub(crate) fn read_text(word: &'a [u8]) -> Option<Hex<'a>>
        ensures { option_map (λ h. h.digits.now) result ≡ hex word.now }
    {
        let len = word.len();
        if 0 < len && len <= MOST_DIGITS && len % 2 == 0 && are_hex_digits(word) {
            Some(Hex { digits: word })
        } else {
            None
        }
    }

    /// Returns the octets.
    pub(crate) fn octets(self) -> ArrayVec<u8, MOST_OCTETS>
        ensures { result.items ≡ octets_of self.entry.digits.now }
    {
        let mut octets = ArrayVec::new();
        let mut rest = self.digits;
        'pairs: while let [high, low, after @ ..] = rest {
            octets.push(octet_of(*high, *low));
            rest = after;
        }
        octets
    }
}
