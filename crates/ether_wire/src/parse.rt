//! Numbers and addresses read from text. Each has exactly one text, the one that is printed.
#![tactic(auto, unfolding(crate::specs::Parse::parted, crate::specs::Parse::is_decimal, crate::specs::Parse::decimal_of_text, crate::specs::Parse::pair_of_text, crate::specs::Parse::mac_of_text, crate::specs::Parse::addr_of_text))]

ghost use Rattle.std.specs.Prelude.{◌≡◌, ◌<◌, ◌≤◌, ◌^◌, ℕ, length, option_map, IfSome, SomeIff, Some, position, ◌==◌, true};
ghost use Rattle.std.specs.Fmt.{decimal};
ghost use Rattle.std.specs.Char.{is_ascii_digit};
ghost use Rattle.std.specs.List.{list_all};
ghost use Rattle.std.specs.Str.Parse.{digits_value};
ghost use Rattle.ether_wire.specs.Addr.{mac_text, addr_text};
ghost use Rattle.ether_wire.specs.Parse.{parted, is_decimal, decimal_of_text, hex_value, pair_of_text, vni_of_text, mac_of_text, addr_of_text};

use crate::addr::{Addr, Mac, Vni};

/// Returns the place of the first occurrence of the octet, or `None` if it doesn't occur.
fn place_of(octet: u8, text: &[u8]) -> Option<usize>
    ensures value { result ≡ position (λ x. x == octet) text.now }
    ensures within { IfSome result (λ at. at < length text.now) }
{
    text.iter().position(|x| *x == octet)
}

/// Returns the octets before the first occurrence of the octet and those after it, or `None` if it
/// doesn't occur.
pub fn parted(octet: u8, text: &[u8]) -> Option<(&[u8], &[u8])>
    ensures { option_map (λ p. (p.0.now, p.1.now)) result ≡ parted octet text.now }
{
    match place_of(octet, text) {
        Some(at) => Some((&text[..at], &text[at + 1..])),
        None => None,
    }
}

/// Returns `true` if all octets are decimal digits.
fn are_digits(text: &[u8]) -> bool
    ensures { result ≡ list_all is_ascii_digit text.now }
{
    text.iter().all(|octet| octet.is_ascii_digit())
}

/// Returns `true` if the text is decimal digits, at least one, without leading zeros.
fn is_decimal(text: &[u8]) -> bool
    ensures { result ≡ is_decimal text.now }
{
    are_digits(text) && !text.is_empty() && (text.len() <= 1 || text[0] != b'0')
}

/// Returns the number of the decimal digits, or `None` if it is 2^64 or more.
fn parsed(text: &[u8]) -> Option<u64>
    requires { is_decimal text.now ≡ true }
    ensures { SomeIff result (digits_value 10 text.now < 2 ^ 64) (digits_value 10 text.now) }
{
    std::str::from_utf8(text).ok()?.parse().ok()
}

/// Returns the number that the text spells in decimal, or `None` if it spells no number of at most
/// `max`.
fn decimal_of_text(text: &[u8], max: u64) -> Option<u64>
    ensures { result ≡ decimal_of_text max text.now }
{
    if !is_decimal(text) {
        return None;
    }
    let number = parsed(text)?;
    if number <= max { Some(number) } else { None }
}

/// Returns the number that the text spells in decimal, without leading zeros, or `None` if it
/// spells no number of at most `max`.
pub fn read_decimal(text: &[u8], max: u64) -> Option<u64>
    ensures value { result ≡ decimal_of_text max text.now }
    ensures spelt { IfSome result (λ n. (text.now ≡ decimal n) × (n ≤ max)) }
    ensures again { (n : ℕ) → n ≤ max → text.now ≡ decimal n → result ≡ Some n }
{
    decimal_of_text(text, max)
}

/// Returns the octet that the text spells in decimal.
fn read_octet(text: &[u8]) -> Option<u8>
    ensures { result ≡ decimal_of_text 255 text.now }
{
    let number = read_decimal(text, 255)?;
    Some(number as u8)
}

/// Returns the value of a lower case hexadecimal digit, or `None` for any other octet.
pub fn hex_value(octet: u8) -> Option<u8>
    ensures value { result ≡ hex_value octet }
    ensures small { IfSome result (λ value. value < 16) }
{
    match octet {
        b'0'..=b'9' => Some(octet - b'0'),
        b'a'..=b'f' => Some(octet - b'a' + 10),
        _ => None,
    }
}

/// Returns the octet that two lower case hexadecimal digits spell.
fn read_pair(text: &[u8]) -> Option<u8>
    ensures { result ≡ pair_of_text text.now }
{
    match text {
        [high, low] => {
            let high = hex_value(*high)?;
            let low = hex_value(*low)?;
            Some(16 * high + low)
        }
        _ => None,
    }
}

impl Vni {
    /// Returns the identifier that the text spells in decimal, without leading zeros.
    pub fn read_text(text: &[u8]) -> Option<Vni>
        ensures value { result ≡ vni_of_text text.now }
        ensures spelt { IfSome result (λ v. text.now ≡ decimal v) }
        ensures again { (v : ℕ) → v < 2 ^ 24 → text.now ≡ decimal v → result ≡ Some v }
    {
        let number = read_decimal(text, 0xff_ffff)?;
        Some(Vni::new(number as u32))
    }
}

/// Returns the address that six pairs of digits with colons spell.
fn mac_of_text(text: &[u8]) -> Option<Mac>
    ensures { result ≡ mac_of_text text.now }
{
    let (a, rest) = parted(b':', text)?;
    let a = read_pair(a)?;
    let (b, rest) = parted(b':', rest)?;
    let b = read_pair(b)?;
    let (c, rest) = parted(b':', rest)?;
    let c = read_pair(c)?;
    let (d, rest) = parted(b':', rest)?;
    let d = read_pair(d)?;
    let (e, f) = parted(b':', rest)?;
    let e = read_pair(e)?;
    let f = read_pair(f)?;
    Some(Mac::from_octets(&[a, b, c, d, e, f]))
}

impl Mac {
    /// Returns the address that the text spells: six pairs of lower case hexadecimal digits with
    /// colons.
    pub fn read_text(text: &[u8]) -> Option<Mac>
        ensures value { result ≡ mac_of_text text.now }
        ensures spelt { IfSome result (λ m. text.now ≡ mac_text m) }
        ensures again { (m : ℕ) → m < 2 ^ 48 → text.now ≡ mac_text m → result ≡ Some m }
    {
        mac_of_text(text)
    }
}

/// Returns the address that four decimal numbers with dots spell.
fn addr_of_text(text: &[u8]) -> Option<Addr>
    ensures { result ≡ addr_of_text text.now }
{
    let (a, rest) = parted(b'.', text)?;
    let a = read_octet(a)?;
    let (b, rest) = parted(b'.', rest)?;
    let b = read_octet(b)?;
    let (c, d) = parted(b'.', rest)?;
    let c = read_octet(c)?;
    let d = read_octet(d)?;
    Some(Addr::from_octets(&[a, b, c, d]))
}

impl Addr {
    /// Returns the address that the text spells: four decimal numbers with dots, without leading
    /// zeros.
    pub fn read_text(text: &[u8]) -> Option<Addr>
        ensures value { result ≡ addr_of_text text.now }
        ensures spelt { IfSome result (λ a. text.now ≡ addr_text a) }
        ensures again { (a : ℕ) → a < 2 ^ 32 → text.now ≡ addr_text a → result ≡ Some a }
    {
        addr_of_text(text)
    }
}
