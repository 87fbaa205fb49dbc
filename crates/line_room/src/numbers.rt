//! Numbers, put after the bytes of a room.
ghost use Rattle.std.specs.Prelude.{◌≡◌, ◌≤◌, ◌+◌, ◌++◌, ◌∷◌, [], length, take};
ghost use Rattle.std.specs.Fmt.{decimal};

use itoa::write_digits;

/// The most digits of a number.
pub(crate) const MOST_DIGITS: usize = 20;

/// Puts a number, and returns how many bytes are held then.
#[inline(always)]
fn put_digits(n: usize, room: &mut [u8], used: usize) -> usize
    requires { used + MOST_DIGITS ≤ length room.old }
    ensures size { length room.new ≡ length room.old }
    ensures within { result ≤ used + MOST_DIGITS }
    ensures text { take result room.new ≡ take used room.old ++ decimal n }
{
    let mut digits = [0u8; 2 * MOST_DIGITS];
    let start = write_digits(n as u64, &mut digits, MOST_DIGITS);
    room[used..used + MOST_DIGITS].copy_from_slice(&digits[start..start + MOST_DIGITS]);
    used + (MOST_DIGITS - start)
}

/// Puts a byte, and returns how many are held then.
#[inline(always)]
pub(crate) fn put_byte(byte: u8, room: &mut [u8], used: usize) -> usize
    requires { used + 1 ≤ length room.old }
    ensures size { length room.new ≡ length room.old }
    ensures count { result ≡ used + 1 }
    ensures text { take result room.new ≡ take used room.old ++ byte ∷ [] }
{
    room[used] = byte;
    used + 1
}

/// Puts a number and a space, and returns how many bytes are held then.
#[inline(always)]
pub(crate) fn put_number(n: usize, room: &mut [u8], used: usize) -> usize
    requires { used + MOST_DIGITS + 1 ≤ length room.old }
    ensures size { length room.new ≡ length room.old }
    ensures within { result ≤ used + MOST_DIGITS + 1 }
    ensures text { take result room.new ≡ take used room.old ++ (decimal n ++ 32 ∷ []) }
{
    let end = put_digits(n, room, used);
    put_byte(b' ', room, end)
}
