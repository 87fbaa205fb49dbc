//! What bytes of a spelling stand for, put after the bytes of a room.
ghost use Rattle.std.specs.Prelude.{◌≡◌, ◌≤◌, ◌+◌, ◌*◌, ◌++◌, length, take, true};
ghost use Rattle.meta_format.specs.Spelling.{is_special};
ghost use Rattle.sheet_text.specs.inside.Spelled.{after_escape, spelled_byte};
ghost use Rattle.line_room.specs.inside.Puts.{size_of};

use crate::table::{MOST_PRINTED, SPELLED};

/// How many of the four places count.
#[inline(always)]
fn size_of(text: &[u8; MOST_PRINTED]) -> usize
    ensures { result ≡ size_of text.now }
{
    if text[1] == b'x' { 4 } else { 1 }
}

/// Puts four bytes after those that a room holds.
#[inline(always)]
fn put_four(text: &[u8; MOST_PRINTED], room: &mut [u8], used: usize)
    requires { used + MOST_PRINTED ≤ length room.old }
    ensures size { length room.new ≡ length room.old }
    ensures text { take (used + MOST_PRINTED) room.new ≡ take used room.old ++ text.now }
{
    room[used..used + MOST_PRINTED].copy_from_slice(text);
}

/// Puts what a byte stands for that isn't 27, and returns how many bytes are held then.
#[inline(always)]
pub(crate) fn put_spelled(byte: u8, room: &mut [u8], used: usize) -> usize
    requires { used + MOST_PRINTED ≤ length room.old }
    ensures size { length room.new ≡ length room.old }
    ensures within { result ≤ used + MOST_PRINTED }
    ensures text { take result room.new ≡ take used room.old ++ spelled_byte byte }
{
    let text = &SPELLED[byte as usize];
    put_four(text, room, used);
    used + size_of(text)
}

/// What a byte that a 27 stands before stands for, where it couldn't stand alone.
#[inline(always)]
fn special(byte: u8) -> [u8; MOST_PRINTED]
    requires { is_special byte ≡ true }
    ensures { result ≡ after_escape byte }
{
    match byte {
        2 => *b"\\x02",
        5 => *b"\\x05",
        _ => *b"\\x1b",
    }
}

/// Puts what a 27 and the byte after it stand for, and returns how many bytes are held then.
#[inline(always)]
pub(crate) fn put_escaped(byte: u8, room: &mut [u8], used: usize) -> usize
    requires { used + 2 * MOST_PRINTED ≤ length room.old }
    ensures size { length room.new ≡ length room.old }
    ensures within { result ≤ used + 2 * MOST_PRINTED }
    ensures text { take result room.new ≡ take used room.old ++ after_escape byte }
{
    if byte == 2 || byte == 5 || byte == 27 {
        put_four(&special(byte), room, used);
        return used + MOST_PRINTED;
    }
    put_four(b"\\x1b", room, used);
    put_spelled(byte, room, used + MOST_PRINTED)
}
