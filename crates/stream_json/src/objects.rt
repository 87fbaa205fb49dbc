//! The objects of a stream.
ghost use Rattle.std.specs.Prelude.{◌≡◌, IfOk, codes};
ghost use Rattle.block_tree.specs.Output.{output, text_on_channel};
ghost use Rattle.sheet_json.specs.Blocks.{tree_data};
ghost use Rattle.serde_json.specs.Data.{member, no_members};
ghost use Rattle.serde_json.specs.View.{members_view, view};
ghost use Rattle.sheet_json.specs.Objects.{shown_data, text_or_null};
ghost use Rattle.sheet_text.specs.Blocks as printed;
ghost use Rattle.stream_json.specs.StreamObjects.{outer_data, outer_with, unfinished_data};

use block_tree::{Block, channel_text, output_of};
use serde_json::{Map, Value, json, put};
use sheet_json::{block_value, bytes_value, shown_value};
use std::alloc::{AllocError, Global};

/// The text of a channel, or that a block has no such channel.
fn channel_value(alloc: Global, block: &Block, name: &[u8]) -> Result<Value, AllocError>
    ensures { IfOk result (λ value. view value ≡ text_or_null
        (text_on_channel name.now block.now)) }
{
    match channel_text(alloc, block, name)? {
        None => Ok(Value::Null),
        Some(text) => bytes_value(alloc, text.as_slice()),
    }
}

/// What a host takes of an outer block as an answer.
#[derive(Drop)]
struct Taken {
    default: Value,
    output: Value,
    prompt: Value,
    shown: Value,
}

/// The output of a block: its blocks, and it as a worksheet shows it.
fn outputs_of(alloc: Global, block: &Block) -> Result<(Value, Value), AllocError>
    ensures output { IfOk result (λ outputs. view outputs.0 ≡ tree_data (output block.now)) }
    ensures shown { IfOk result (λ outputs. view outputs.1 ≡ shown_data (output block.now)) }
{
    let output = output_of(alloc, block)?;
    let shown = shown_value(alloc, &output)?;
    let blocks = block_value(alloc, &output)?;
    Ok((blocks, shown))
}

/// What a host takes of a block as an answer: its default, its output in blocks and as shown, and its prompt.
fn taken_of(alloc: Global, block: &Block) -> Result<Taken, AllocError>
    ensures default { IfOk result (λ taken. view taken.default
        ≡ text_or_null (text_on_channel (codes "input") block.now)) }
    ensures output { IfOk result (λ taken. view taken.output ≡ tree_data (output block.now)) }
    ensures prompt { IfOk result (λ taken. view taken.prompt
        ≡ text_or_null (text_on_channel (codes "prompt") block.now)) }
    ensures shown { IfOk result (λ taken. view taken.shown ≡ shown_data (output block.now)) }
{
    let default = channel_value(alloc, block, b"input")?;
    let prompt = channel_value(alloc, block, b"prompt")?;
    let (output, shown) = outputs_of(alloc, block)?;
    Ok(Taken {
        default,
        output,
        prompt,
        shown,
    })
}

/// What a host takes of a block, as members of an object.
fn members_of(alloc: Global, taken: Taken) -> Result<Map<String, Value>, AllocError>
    ensures { IfOk result (λ map. members_view map.entries
        ≡ member (codes "default") (view taken.default) (member (codes "output") (view taken.output)
        (member (codes "prompt") (view taken.prompt)
        (member (codes "shown") (view taken.shown) no_members)))) }
{
    let Taken {
        default,
        output,
        prompt,
        shown,
    } = taken;
    let mut map = Map::new(alloc);
    put(&mut map, alloc, "default", default)?;
    put(&mut map, alloc, "output", output)?;
    put(&mut map, alloc, "prompt", prompt)?;
    put(&mut map, alloc, "shown", shown)?;
    Ok(map)
}

/// A block with its offsets, and with what a host takes of it.
fn framed(
    alloc: Global,
    start: usize,
    stop: usize,
    block: &Block,
    taken: Taken,
) -> Result<Value, AllocError>
    ensures { IfOk result (λ value. view value
        ≡ outer_with record { start = start; stop = stop; block = block.now }
        (view taken.default) (view taken.output) (view taken.prompt) (view taken.shown)) }
{
    let mut map = members_of(alloc, taken)?;
    put(&mut map, alloc, "block", block_value(alloc, block)?)?;
    put(&mut map, alloc, "start", Value::from(start as u64))?;
    put(&mut map, alloc, "stop", Value::from(stop as u64))?;
    put(
        &mut map,
        alloc,
        "type",
        Value::try_from_str(alloc, "block")?,
    )?;
    Ok(Value::Object(map))
}

/// An outer block: where it starts, where the next byte stands, and the block with all its tags; and what a
/// host takes of it as an answer.
pub fn outer_value(
    alloc: Global,
    start: usize,
    stop: usize,
    block: &Block,
) -> Result<Value, AllocError>
    ensures { IfOk result (λ value. view value
        ≡ outer_data record { start = start; stop = stop; block = block.now }) }
{
    let taken = taken_of(alloc, block)?;
    framed(alloc, start, stop, block, taken)
}

/// An outer block that is open at the end of the stream.
pub fn unfinished_value(alloc: Global, start: usize) -> Result<Value, AllocError>
    ensures { IfOk result (λ value. view value ≡ unfinished_data start) }
{
    json!(in alloc; {"start": start as u64, "type": "unfinished"})
}
