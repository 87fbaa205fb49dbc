//! Bytes as JSON.
ghost use Rattle.std.specs.Prelude.{◌≡◌, IfOk};
ghost use Rattle.serde_json.specs.View.{view};
ghost use Rattle.sheet_json.specs.Bytes.{bytes_data, base64_data};

use base64::engine::general_purpose::STANDARD;
use serde_json::{Value, json};
use std::alloc::{AllocError, Global};
use std::str;

/// The base64 of bytes, as an object.
fn base64_value(alloc: Global, bytes: &[u8]) -> Result<Value, AllocError>
    ensures { IfOk result (λ value. view value ≡ base64_data bytes.now) }
{
    let text = STANDARD.encode(alloc, bytes)?;
    json!(in alloc; {"base64": text})
}

#[tactic(auto, using(crate::proofs::Utf8::utf8_rules))]
/// Bytes: a string where they are UTF-8, else the base64 of them.
pub fn bytes_value(alloc: Global, bytes: &[u8]) -> Result<Value, AllocError>
    ensures { IfOk result (λ value. view value ≡ bytes_data bytes.now) }
{
    match str::from_utf8(bytes) {
        Ok(text) => json!(in alloc; text),
        Err(_) => base64_value(alloc, bytes),
    }
}
