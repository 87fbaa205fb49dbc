//! Lines that wait and are lost, and calls while no memory is left.
use super::desk::{add_life, add_lines, add_lost, begun, empty_text, is_reported};
use plugin_core::{Life, Reason};
use std::alloc::Global;
use tests_desk::exhausted;

// What follows line x, and what is reported.
fn case(number: u32) -> (&'static str, &'static str) {
    match number {
        // A line is sent at once where nothing waits, and the next one isn't.
        0 => (
            "\x02verbatim:\x05\n\x02verbatim:\x05\n>\n>z",
            "banner \x02verbatim:\x05\nsend x\nline 1 [> ] \x02verbatim:\x05\nsend \nlife 7 [> ] waits 2: 4 5\n",
        ),
        // An item without memory comes back.
        1 => (
            "\x02verbatim:\x05\n\x02verbatim:\x05\n!>y",
            "banner \x02verbatim:\x05\nsend x\nline 1 [> ] \x02verbatim:\x05\nno memory: line 4 y\nlife 7 [> ] waits 0:\n",
        ),
        // A piece without memory ends the life.
        _ => (
            ">y\n\x02verbatim:\x05\n!\x02verbatim:A\x05",
            "banner \x02verbatim:\x05\nsend x\nno memory\nlife 7 is over\n",
        ),
    }
}

#[test]
fn lines_that_wait_and_want_of_memory(rt: HostRuntime) {
    for number in 0..3u32 {
        let (script, want) = case(number);
        assert!(rt; is_reported(rt.alloc(), "x", script, want), "case {number}");
    }
}

// Three lines wait, and half an answer is there.
fn half_answered(alloc: Global, text: &mut String) -> Option<Life> {
    let mut life = begun(alloc, "x")?;
    add_lines(
        alloc,
        text,
        &mut life,
        ">y\n>z\n\x02verbatim:\x05\n\x02verbatim:hal",
    );
    add_life(text, &life);
    Some(life)
}

fn reported_at_the_end(alloc: Global) -> Option<String> {
    let mut text = empty_text(alloc)?;
    let life = half_answered(alloc, &mut text)?;
    add_lost(&mut text, life);
    Some(text)
}

fn are_lost(alloc: Global) -> bool {
    let want =
        "banner \x02verbatim:\x05\nsend x\nlife 7 [> ] waits 3: 1 2 3\nEnded\nline 1 x\nline 2 y\nline 3 z\nnone\n";
    match reported_at_the_end(alloc) {
        Some(text) => text.as_str() == want,
        None => false,
    }
}

#[test]
fn the_lost_lines_of_half_an_answer(rt: HostRuntime) {
    assert!(rt; are_lost(rt.alloc()));
}

// How many lines are lost by an end while no memory is left.
fn lost(life: Life) -> Option<usize> {
    if life.over() {
        return None;
    }
    Some(life.finish(Reason::Stopped).lost.len())
}

fn lost_without(alloc: Global, life: Life) -> Option<usize> {
    match exhausted(alloc) {
        Ok(_held) => lost(life),
        Err(_) => None,
    }
}

// The same where half an answer is there.
fn lost_in_half(alloc: Global) -> Option<usize> {
    let mut text = empty_text(alloc)?;
    lost_without(alloc, half_answered(alloc, &mut text)?)
}

#[test]
fn an_end_without_memory(rt: HostRuntime) {
    assert!(rt; lost_in_half(rt.alloc()) == Some(3));
}
