//! Up to which bounds fields are counted.
ghost use Rattle.std.specs.Prelude.{◌≡◌, ◌⊎◌, ◌+◌, ◌<◌, ◌≤◌, ◌^◌, false, length, true};
ghost use Rattle.driver.specs.Steps.{most_together};

use driver::MOST_COUNTED;
use evaluation::plan::Stand;
use worksheet::Sheet;

/// The most fields that are counted. A worksheet has fewer.
const MOST_FIELDS: usize = (1 << 31) - 1;

/// Whether the fields of another group can't be counted, or another whose time is over.
pub(crate) fn is_full(stand: &Stand) -> bool
    ensures yes { result ≡ true → (2 ^ 64 ≤ stand.now.asked + most_together + 1)
        ⊎ (2 ^ 64 ≤ stand.now.overs + 1) }
    ensures no { result ≡ false → (stand.now.asked + most_together + 1 < 2 ^ 64)
        × (stand.now.overs + 1 < 2 ^ 64) }
{
    stand.asked > MOST_COUNTED || stand.overs == u64::MAX
}

/// Whether more fields were taken than are evaluated, or those are too many.
pub(crate) fn is_beyond(taken: usize, all: usize) -> bool
    ensures yes { result ≡ true → (all < taken) ⊎ (2 ^ 31 ≤ all) }
    ensures no { result ≡ false → (taken ≤ all) × (all < 2 ^ 31) }
{
    taken > all || all > MOST_FIELDS
}

/// Whether a worksheet has so few fields that they are counted.
pub(crate) fn has_few_fields(sheet: &Sheet) -> bool
    ensures yes { result ≡ true → length sheet.now.contents.fields < 2 ^ 31 }
    ensures no { result ≡ false → 2 ^ 31 ≤ length sheet.now.contents.fields }
{
    let mut count: usize = 0;
    for field in sheet.fields() {
        let _ = field;
        if count >= MOST_FIELDS {
            return false;
        }
        count = count + 1;
    }
    true
}
