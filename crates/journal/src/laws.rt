//! Laws of the definitions that the contracts cite. Each function does nothing: its contract is the
//! law.
ghost use Rattle.journal.specs.Laws.{GateAfter, OwesMore, NoDamage, OneDamage, OneFront, OneList, StandingOpens};

/// An area stands for at most one list of payloads.
pub fn one_list()
    ensures { OneList }
{}

/// An area is damaged at one gate at most.
pub fn one_damage()
    ensures { OneDamage }
{}

/// An area that stands for payloads isn't damaged.
pub fn no_damage()
    ensures { NoDamage }
{}

/// An area has one front at most: the payloads of its whole records, and whether the gate after them
/// is damaged.
pub fn one_front()
    ensures { OneFront }
{}

/// A disk that stands for payloads is refused for no cause that lies in its bytes.
pub fn standing_opens()
    ensures { StandingOpens }
{}

/// The gate after payloads follows their records.
pub fn gate_after()
    ensures { GateAfter }
{}

/// Payloads that are owed to a disk are kept by it as it would be, and one more that is owed is an append.
pub fn owes_more()
    ensures { OwesMore }
{}
