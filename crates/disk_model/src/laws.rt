//! Laws of the definitions that the contracts cite. Each function does nothing: its contract is the
//! law.
ghost use Rattle.disk_model.specs.Laws.{FreshIsRestarted, RoomIsSo};

/// [`GREATEST_ROOM`](crate::GREATEST_ROOM) is the limit of which the contracts speak.
pub fn room_is_so()
    ensures { RoomIsSo }
{}

/// A disk in memory that was just made is one that was started again, on the bytes that it was made
/// with: a crash would leave these alone.
pub fn fresh_is_restarted()
    ensures { FreshIsRestarted }
{}
