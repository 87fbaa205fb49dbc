//! What a host tells, in lines.
use block_tree::{Block, Octets, OutOfMemory};
use disk_model::Disk;
use host_events::{ChildReply, Closed, Effect, Event, Outcome, Reply};
use meta_format::write_block;
use scheme_text::{BadCompletion, Completions};
use session_engine::{Host, PlayFault};
use std::alloc::Global;
use std::fmt::Write;
use std::{fmt, str};
use worksheet::Field;

fn shown(bytes: &[u8]) -> &str {
    match str::from_utf8(bytes) {
        Ok(text) => text,
        Err(_) => "?",
    }
}

// The field, and the root and the completions, or `bad`.
fn add_completed(
    text: &mut String,
    id: u32,
    reported: &Result<Completions, BadCompletion>,
) -> Result<(), OutOfMemory> {
    write!(text, "completed {id}")?;
    match reported {
        Ok(reported) => {
            write!(text, " {}", shown(reported.root.as_slice()))?;
            add_words(text, reported.rest.as_slice())
        }
        Err(_) => writeln!(text, " bad"),
    }
}

fn add_child(text: &mut String, reported: &ChildReply) -> Result<(), OutOfMemory> {
    let name = shown(reported.name.as_slice());
    match &reported.closed {
        Some(Closed::Banner(_)) => writeln!(text, "banner {name}")?,
        Some(Closed::Line(id)) => writeln!(text, "answered {id}")?,
        Some(Closed::Complete(id, reported)) => add_completed(text, *id, reported)?,
        None => {}
    }
    if let Some(input) = &reported.default_input {
        let input = shown(input.as_slice());
        writeln!(text, "default {name} {input}")?;
    }
    if let Some(ended) = &reported.ended {
        let lost = ended.lost.len();
        let reason = ended.reason;
        writeln!(text, "ended {name} {reason:?} lost {lost}")?;
    }
    Ok(())
}

fn add_reply(text: &mut String, reply: &Reply) -> Result<(), OutOfMemory> {
    match reply {
        Reply::Done => writeln!(text, "ok"),
        Reply::Field(id) => writeln!(text, "field {id}"),
        Reply::Asked(life) => writeln!(text, "asked {life}"),
        Reply::Refused(refusal) => {
            writeln!(text, "refused {} {}", refusal.number(), refusal.name())
        }
        Reply::Child(reported) => add_child(text, reported),
        Reply::Nothing => writeln!(text, "nothing"),
    }
}

fn add_words(text: &mut String, words: &[Octets]) -> Result<(), OutOfMemory> {
    for word in words {
        write!(text, " {}", shown(word.as_slice()))?;
    }
    writeln!(text, "")
}

fn add_effect(text: &mut String, effect: &Effect) -> Result<(), OutOfMemory> {
    match effect {
        Effect::Start { name, life, words } => {
            write!(text, "start {} {life}", shown(name.as_slice()))?;
            add_words(text, words.as_slice())
        }
        Effect::Send { name, life, bytes } => {
            write!(
                text,
                "send {} {life} {}",
                shown(name.as_slice()),
                shown(bytes.as_slice())
            )
        }
        Effect::Kill { name, life } => writeln!(text, "kill {} {life}", shown(name.as_slice())),
    }
}

fn add_outcome(text: &mut String, outcome: &Outcome) -> Result<(), OutOfMemory> {
    add_reply(text, &outcome.reply)?;
    match &outcome.effect {
        Some(effect) => add_effect(text, effect),
        None => Ok(()),
    }
}

fn add_outcomes(text: &mut String, outcomes: &[Outcome]) -> Result<(), OutOfMemory> {
    for outcome in outcomes {
        add_outcome(text, outcome)?;
    }
    Ok(())
}

// Takes an event, and adds the reply and the effect, or the fault.
fn add_step<D: Disk>(
    text: &mut String,
    host: &mut Host<D>,
    event: Event,
) -> Result<(), OutOfMemory> {
    match host.step(event) {
        Ok(outcome) => add_outcome(text, &outcome),
        Err(fault) => writeln!(text, "fault {fault:?}"),
    }
}

// The same of a play of events, one after another.
fn add_play<D: Disk>(
    text: &mut String,
    host: &mut Host<D>,
    events: Vec<Event>,
) -> Result<(), OutOfMemory> {
    match host.play(events) {
        Ok(outcomes) => add_outcomes(text, outcomes.as_slice()),
        Err(PlayFault::Stopped { outcomes, fault }) => {
            add_outcomes(text, outcomes.as_slice())?;
            writeln!(text, "fault {fault:?}")
        }
        Err(PlayFault::NoRoom(_)) => writeln!(text, "no room"),
    }
}

/// What an event gives, in lines: the reply, the effect, or the fault.
pub fn reported<D: Disk>(
    alloc: Global,
    host: &mut Host<D>,
    event: Event,
) -> Result<String, OutOfMemory> {
    let mut text = String::new(alloc);
    add_step(&mut text, host, event)?;
    Ok(text)
}

/// The same of a play of events, one after another.
pub fn played<D: Disk>(
    alloc: Global,
    host: &mut Host<D>,
    events: Vec<Event>,
) -> Result<String, OutOfMemory> {
    let mut text = String::new(alloc);
    add_play(&mut text, host, events)?;
    Ok(text)
}

fn spelling(alloc: Global, block: &Block) -> Result<Vec<u8>, OutOfMemory> {
    let mut bytes = Vec::new(alloc);
    write_block(block, &mut bytes)?;
    Ok(bytes)
}

fn add_field(alloc: Global, text: &mut String, field: &Field) -> Result<(), OutOfMemory> {
    let (id, input) = (field.id, field.input.as_str());
    let Some(answer) = &field.answer else {
        return match field.lost {
            Some(reason) => writeln!(text, "{id} {input} ? {reason:?}"),
            None => writeln!(text, "{id} {input} ?"),
        };
    };
    let output = spelling(alloc, &answer.output)?;
    let (prompt, output) = (shown(answer.prompt.as_slice()), shown(output.as_slice()));
    writeln!(text, "{id} {prompt}{input} {output}")
}

fn add_fields<D: Disk>(
    alloc: Global,
    text: &mut String,
    host: &Host<D>,
) -> Result<(), OutOfMemory> {
    for field in host.sheet().fields() {
        add_field(alloc, text, field)?;
    }
    Ok(())
}

/// The fields in order: the number, the prompt and the input, and the output in its canonical spelling
/// or `?`, with the reason if there is one.
pub fn fields<D: Disk>(alloc: Global, host: &Host<D>) -> Result<String, OutOfMemory> {
    let mut text = String::new(alloc);
    add_fields(alloc, &mut text, host)?;
    Ok(text)
}
