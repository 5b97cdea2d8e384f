//! Hexadecimal digits.
ghost use Rattle.std.specs.Prelude.{◌≡◌, ◌<◌, is_some};
ghost use Rattle.std.specs.List.{list_all};
ghost use Rattle.ether_wire.specs.Parse.{hex_value};
ghost use Rattle.ev_script.specs.Script.{is_hex_digit, value_or_zero, octet_of};

use ether_wire::hex_value;

/// Returns `true` if an octet is a lower case digit.
fn is_hex_digit(octet: u8) -> bool
    ensures { result ≡ is_hex_digit octet }
{
    hex_value(octet).is_some()
}

/// Returns `true` if all octets are digits.
pub(crate) fn are_hex_digits(word: &[u8]) -> bool
    ensures { result ≡ list_all is_hex_digit word.now }
{
    word.iter().all(|octet| is_hex_digit(*octet))
}

/// Returns the value of a digit, or 0 if the octet is no digit.
fn value_or_zero(octet: u8) -> u8
    ensures value { result ≡ value_or_zero (hex_value octet) }
    ensures small { result < 16 }
{
    match hex_value(octet) {
        None => 0,
        Some(value) => value,
    }
}

/// Returns the octet of two digits.
pub(crate) fn octet_of(high: u8, low: u8) -> u8
    ensures { result ≡ octet_of high low }
{
    16 * value_or_zero(high) + value_or_zero(low)
}
