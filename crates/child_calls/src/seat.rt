//! The life that a call is for.
use worksheet::Name;

/// The life of a session, by its number.
#[derive(Clone, Copy, Debug)]
pub struct Seat {
    pub name: Name,
    pub life: u32,
}
