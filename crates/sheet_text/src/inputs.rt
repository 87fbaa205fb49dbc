//! The lines of an input, in which U+2028 stands for the end of a line.
ghost use Rattle.std.specs.Prelude.{◌≡◌, ◌<◌, ◌∷◌, IfOk, IfSome, OnOk, length, string_bytes};
ghost use Rattle.std.specs.Option.{option_copied};
ghost use Rattle.std.specs.Io.KnownBytes.{Appends};
ghost use Rattle.sheet_text.specs.Escape.{on_line};
ghost use Rattle.sheet_text.specs.InputLines as inputs;

use crate::escape::write_line;
use crate::fault::WriteFault;
use std::alloc::{AllocError, Global};
use std::io::Write;

/// The first line of an input, and what comes after the U+2028 that ends it, if one does.
pub fn next_line(input: &str) -> (&str, Option<&str>)
    ensures lines { inputs.lines_of_input input.now
        ≡ result.0.now ∷ inputs.further_lines (option_copied result.1) }
    ensures fewer { IfSome result.1 (λ rest. length rest.now < length input.now) }
{
    match input.split_once("\u{2028}") {
        None => (input, None),
        Some((line, rest)) => (line, Some(rest)),
    }
}

/// Writes an input, each of its lines as `write_line` does, with a text between each two.
///
/// After a `WriteFault` a part of the text may have gone out.
#[tactic(auto, using(crate::proofs::LineCuts::line_steps))]
pub fn write_input_lines<W: Write>(
    input: &str,
    between: &[u8],
    out: &mut W,
) -> Result<(), WriteFault>
    ensures { OnOk result
        (Appends (W.contents out.old) (W.contents out.new)
        (inputs.text_of_lines on_line between.now (inputs.lines_of_input input.now))) }
{
    let (first, mut following) = next_line(input);
    write_line(first.as_bytes(), out)?;
    while let Some(rest) = following {
        out.write_all(between).map_err(|_| WriteFault)?;
        let (line, others) = next_line(rest);
        write_line(line.as_bytes(), out)?;
        following = others;
    }
    Ok(())
}

/// An input with a line feed for each U+2028, as readers of text take it.
#[tactic(auto, using(crate::proofs::LineCuts::text_steps))]
pub fn unfolded(alloc: Global, input: &str) -> Result<String, AllocError>
    ensures { IfOk result (λ text. string_bytes text ≡ inputs.unfolded input.now) }
{
    let mut text = String::new(alloc);
    let (first, mut following) = next_line(input);
    text.push_str(first)?;
    while let Some(rest) = following {
        text.push_str("\n")?;
        let (line, others) = next_line(rest);
        text.push_str(line)?;
        following = others;
    }
    Ok(text)
}
