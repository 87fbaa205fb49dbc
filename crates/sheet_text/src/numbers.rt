//! Numbers in a script.
ghost use Rattle.std.specs.Prelude.{◌≡◌, ◌&&◌, ◌≤◌, length, true};
ghost use Rattle.std.specs.List.{list_all};
ghost use Rattle.std.specs.Str.Parse.{digits_value};
ghost use Rattle.sheet_text.specs.Script as said;

/// The greatest number that a script can write.
pub const GREATEST_NUMBER: u64 = 4_294_967_295;

/// The most digits of a number.
pub const MOST_DIGITS: usize = 10;

fn are_digits(bytes: &[u8]) -> bool
    ensures { result ≡ list_all said.is_digit bytes.now }
{
    bytes.iter().all(|byte| *byte >= b'0' && *byte <= b'9')
}

fn starts_with_zero(bytes: &[u8]) -> bool
    ensures { result ≡ said.starts_with_zero bytes.now }
{
    bytes.first() == Some(&b'0')
}

/// Whether these bytes are `0`, or 1 to 10 digits without a leading zero.
fn is_numeral(bytes: &[u8]) -> bool
    ensures { result ≡ said.is_numeral bytes.now }
{
    !bytes.is_empty()
        && bytes.len() <= MOST_DIGITS
        && are_digits(bytes)
        && (!starts_with_zero(bytes) || bytes.len() == 1)
}

/// The number that at most ten digits write.
#[tactic(auto, using(crate::proofs::Numerals::numeral_steps))]
fn value_of(bytes: &[u8]) -> u64
    requires digits { list_all said.is_digit bytes.now ≡ true }
    requires few { length bytes.now ≤ 10 }
    ensures { result ≡ digits_value 10 bytes.now }
{
    let mut value: u64 = 0;
    for byte in bytes {
        value = value * 10 + u64::from(*byte - b'0');
    }
    value
}

/// The number that all of these bytes write.
pub fn read_number(bytes: &[u8]) -> Option<u32>
    ensures { result ≡ said.number_written bytes.now }
{
    if !is_numeral(bytes) {
        return None;
    }
    let value = value_of(bytes);
    if value > GREATEST_NUMBER {
        return None;
    }
    Some(value as u32)
}
