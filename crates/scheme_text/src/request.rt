//! Requests of completions.
ghost use Rattle.std.specs.Prelude.{◌≡◌, ◌++◌, IfOk, OnOk};
ghost use Rattle.std.specs.Fmt.{decimal};
ghost use Rattle.std.specs.Str.{IsCharBoundary};
ghost use Rattle.scheme_text.specs.Quoting.{quoted};
ghost use Rattle.scheme_text.specs.Requests.{request};

use block_tree::{Octets, OutOfMemory};
use std::alloc::Global;
use std::io::Write;

/// The byte in front of a request. (GNU TeXmacs manual, interfacing: tab-completion.)
const DATA_COMMAND: u8 = 16;

/// Adds a text as it is written between quotes.
#[tactic(auto, using(crate::proofs::Writing::quoted_rules))]
fn push_quoted(text: &[u8], out: &mut Vec<u8>) -> Result<(), OutOfMemory>
    ensures { OnOk result (out.new.items ≡ out.old.items ++ quoted text.now) }
{
    for byte in text {
        if *byte == b'"' || *byte == b'\\' {
            out.push(b'\\')?;
        }
        out.push(*byte)?;
    }
    Ok(())
}

/// Adds a number in decimal.
fn push_number(number: usize, out: &mut Vec<u8>) -> Result<(), OutOfMemory>
    ensures { OnOk result (out.new.items ≡ out.old.items ++ decimal number) }
{
    write!(out, "{number}").map_err(|_| OutOfMemory)?;
    Ok(())
}

/// The bytes that ask for the completions of an input, with the line feed at their end. The cursor
/// is the number of bytes before it; it stands in front of a character or at the input's end.
///
/// (GNU TeXmacs manual, interfacing: tab-completion; the input is a string of R5RS 6.3.5.)
#[tactic(auto, using(crate::proofs::Writing::request_rules))]
pub fn write_request(alloc: Global, input: &str, cursor: usize) -> Result<Octets, OutOfMemory>
    requires { IsCharBoundary input.now cursor }
    ensures { IfOk result (λ bytes. bytes ≡ request input.now cursor) }
{
    let mut bytes = Vec::new(alloc);
    bytes.push(DATA_COMMAND)?;
    bytes.extend_from_slice(b"(complete \"")?;
    push_quoted(input.as_bytes(), &mut bytes)?;
    bytes.extend_from_slice(b"\" ")?;
    push_number(cursor, &mut bytes)?;
    bytes.extend_from_slice(b")\n")?;
    Ok(Octets::from_vec(bytes))
}
