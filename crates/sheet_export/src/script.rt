//! The script that makes a worksheet again.
ghost use Rattle.std.specs.Prelude.{◌≡◌, ◌∷◌, ◌++◌, [], OnOk, map, true};
ghost use Rattle.std.specs.Io.KnownBytes.{Appends};
ghost use Rattle.std.specs.List.{list_all};
ghost use Rattle.sheet_export.specs.Script as script;

use crate::fixed::write_bytes;
use block_tree::Octets;
use sheet_text::WriteFault;
use std::io::Write;
use worksheet::limits::MOST_FIELDS;
use worksheet::{Field, Session, Sheet};

/// Whether a word has no space.
fn has_no_space(word: &[u8]) -> bool
    ensures { result ≡ script.has_no_space word.now }
{
    word.iter().all(|byte| *byte != b' ')
}

/// Whether none of these words has a space.
fn have_no_space(words: &[Octets]) -> bool
    ensures { result ≡ list_all script.has_no_space words.now }
{
    words.iter().all(|word| has_no_space(word.as_slice()))
}

/// Whether each session of a worksheet has a line that makes it.
fn have_lines(sheet: &Sheet) -> bool
    ensures { result ≡ script.have_lines sheet.now.contents.sessions }
{
    let mut sessions = sheet.sessions();
    while let Some(session) = sessions.next() {
        if !have_no_space(session.words.as_slice()) {
            return false;
        }
    }
    true
}

/// Whether there are as few fields as a worksheet may have.
fn has_few_fields(sheet: &Sheet) -> bool
    ensures { result ≡ script.has_few_fields sheet.now.contents }
{
    let mut fields = sheet.fields();
    let mut count = 0;
    while let Some(_) = fields.next() {
        if count == MOST_FIELDS {
            return false;
        }
        count += 1;
    }
    true
}

/// Whether there are lines that make this worksheet again.
pub(crate) fn has_script(sheet: &Sheet) -> bool
    ensures { result ≡ script.has_script sheet.now.contents }
{
    have_lines(sheet) && has_few_fields(sheet)
}

fn write_flag<W: Write>(tab: bool, out: &mut W) -> Result<(), WriteFault>
    ensures { OnOk result (Appends (W.contents out.old) (W.contents out.new)
        (script.flag_text tab)) }
{
    if tab {
        write_bytes(b"tab", out)
    } else {
        write_bytes(b"plain", out)
    }
}

/// Writes a word after a space.
#[tactic(auto, using(crate::proofs::Appending::steps))]
fn write_word<W: Write>(word: &Octets, out: &mut W) -> Result<(), WriteFault>
    ensures { OnOk result (Appends (W.contents out.old) (W.contents out.new) (32 ∷ word.now)) }
{
    write_bytes(b" ", out)?;
    write_bytes(word.as_slice(), out)?;
    Ok(())
}

fn write_words<W: Write>(words: &[Octets], out: &mut W) -> Result<(), WriteFault>
    ensures { OnOk result
        (Appends (W.contents out.old) (W.contents out.new) (script.words_text words.now)) }
{
    for word in words {
        write_word(word, out)?;
    }
    Ok(())
}

/// Writes the line that makes a session.
#[tactic(auto, using(crate::proofs::Appending::steps))]
fn write_session<W: Write>(session: &Session, out: &mut W) -> Result<(), WriteFault>
    ensures { OnOk result
        (Appends (W.contents out.old) (W.contents out.new)
        (script.session_line session.now ++ 10 ∷ [])) }
{
    write_bytes(b"session ", out)?;
    write_bytes(session.name.as_slice(), out)?;
    write_bytes(b" ", out)?;
    write_flag(session.tab, out)?;
    write_words(session.words.as_slice(), out)?;
    write_bytes(b"\n", out)?;
    Ok(())
}

/// Writes the line that makes a field after so many others.
#[tactic(auto, using(crate::proofs::Appending::steps))]
fn write_field<W: Write>(place: usize, field: &Field, out: &mut W) -> Result<(), WriteFault>
    ensures { OnOk result
        (Appends (W.contents out.old) (W.contents out.new)
        (script.field_line place field.now ++ 10 ∷ [])) }
{
    write!(out, "new {} ", place).map_err(|_| WriteFault)?;
    write_bytes(field.session.as_slice(), out)?;
    write_bytes(b" ", out)?;
    write_bytes(field.input.as_bytes(), out)?;
    write_bytes(b"\n", out)?;
    Ok(())
}

#[tactic(auto, using(crate::proofs::Lines::session_steps))]
fn write_sessions<W: Write>(sheet: &Sheet, out: &mut W) -> Result<(), WriteFault>
    ensures { OnOk result
        (Appends (W.contents out.old) (W.contents out.new)
        (script.lines_text (map script.session_line sheet.now.contents.sessions))) }
{
    let mut sessions = sheet.sessions();
    while let Some(session) = sessions.next() {
        write_session(session, out)?;
    }
    Ok(())
}

#[tactic(auto, using(crate::proofs::Lines::field_steps))]
fn write_fields<W: Write>(sheet: &Sheet, out: &mut W) -> Result<(), WriteFault>
    requires { script.has_few_fields sheet.now.contents ≡ true }
    ensures { OnOk result
        (Appends (W.contents out.old) (W.contents out.new)
        (script.lines_text (script.field_lines 0 sheet.now.contents.fields))) }
{
    let mut fields = sheet.fields();
    let mut place: usize = 0;
    while let Some(field) = fields.next() {
        write_field(place, field, out)?;
        place += 1;
    }
    Ok(())
}

/// Writes the lines that make a worksheet again.
#[tactic(auto, using(crate::proofs::Lines::script_steps))]
pub(crate) fn write_script<W: Write>(sheet: &Sheet, out: &mut W) -> Result<(), WriteFault>
    requires { script.has_script sheet.now.contents ≡ true }
    ensures { OnOk result
        (Appends (W.contents out.old) (W.contents out.new)
        (script.script_text sheet.now.contents)) }
{
    write_sessions(sheet, out)?;
    write_fields(sheet, out)?;
    Ok(())
}
