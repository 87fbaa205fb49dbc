//! After which field each one is made again, found in one pass over all of them.
ghost use Rattle.std.specs.Prelude.{◌≡◌, ◌∷◌, ◌++◌, [], ℕ, IfOk, OnOk};
ghost use Rattle.worksheet.specs.Edits.{HasNumbersApart};
ghost use Rattle.recovery.specs.inside.Afters.{AreAfters, last_below};

use block_tree::OutOfMemory;
use std::alloc::Global;
use worksheet::Sheet;

// Puts a number after those that are below it, and drops the others: of any number, the last below it
// is what it would be if none had been dropped. Gives the one in front of it, or 0.
fn put_number(smaller: &mut Vec<u32>, id: u32) -> Result<u32, OutOfMemory>
    ensures front { IfOk result (λ after. after ≡ last_below 0 id smaller.old.items) }
    ensures following { OnOk result ((other : ℕ) → last_below 0 other smaller.new.items
        ≡ last_below 0 other (smaller.old.items ++ id ∷ [])) }
{
    while let Some(last) = smaller.pop() {
        if last < id {
            smaller.push(last)?;
            smaller.push(id)?;
            return Ok(last);
        }
    }
    smaller.push(id)?;
    Ok(0)
}

/// At the place of each field's number: the nearest number in front of it that is smaller, or 0.
pub(crate) fn afters_of(alloc: Global, sheet: &Sheet) -> Result<Vec<u32>, OutOfMemory>
    requires { HasNumbersApart sheet.now.contents }
    ensures { IfOk result (λ afters. AreAfters afters.items sheet.now.contents) }
{
    let mut afters = vec![in alloc; 0u32; sheet.next_id() as usize]?;
    let mut smaller = Vec::new(alloc);
    let mut fields = sheet.fields();
    while let Some(field) = fields.next() {
        let after = put_number(&mut smaller, field.id)?;
        afters[field.id as usize] = after;
    }
    Ok(afters)
}
