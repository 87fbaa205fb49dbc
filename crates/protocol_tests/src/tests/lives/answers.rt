//! Which blocks answer, and what is reported of them.
use super::desk::{is_reported, is_reported_after_a_request};

// A life's first line, a script, and what is reported.
fn of_one_line(number: u32) -> (&'static str, &'static str, &'static str) {
    match number {
        // Prompts in the blocks.
        0 => (
            "x^2",
            "\x02verbatim:Hello\x02prompt#Input 1] \x05\x05\n\x02verbatim:\x02latex:$x^2$\x05\x02prompt#Input 2] \x05\x05",
            "banner \x02verbatim:Hello\x05\nsend x^2\nline 1 [Input 1] ] \x02verbatim:\x02latex:$x^2$\x05\x05\nlife 7 [Input 2] ] waits 0:\n",
        ),
        // A prompt is a whole answer.
        1 => (
            "x",
            "\x02verbatim:\x05\n\x02prompt#a\x05",
            "banner \x02verbatim:\x05\nsend x\nline 1 [> ] \x02verbatim:\x05\nlife 7 [a] waits 0:\n",
        ),
        // A default input in an answer.
        2 => (
            "x",
            "\x02verbatim:\x05\n\x02verbatim:A\x02input#y\x05\x05",
            "banner \x02verbatim:\x05\nsend x\nline 1 [> ] \x02verbatim:A\x05\ndefault y\nlife 7 [> ] waits 0:\n",
        ),
        // A default input is a whole answer.
        3 => (
            "x",
            "\x02verbatim:\x05\n\x02input#y\x05",
            "banner \x02verbatim:\x05\nsend x\nline 1 [> ] \x02verbatim:\x05\ndefault y\nlife 7 [> ] waits 0:\n",
        ),
        // A default input in the banner is reported once, and neither the line nor its answer has it.
        4 => (
            "x",
            "\x02verbatim:Hi\x02input#y\x05\x05\n\x02verbatim:A\x05",
            "banner \x02verbatim:Hi\x05\ndefault y\nsend x\nline 1 [> ] \x02verbatim:A\x05\nlife 7 [> ] waits 0:\n",
        ),
        // Half a block from before the line.
        _ => (
            "x",
            "\x02verbatim:\x05\n\x02verbatim:A\x05\x02verb\n>y\natim:B\x05\n\x02verbatim:C\x05",
            "banner \x02verbatim:\x05\nsend x\nline 1 [> ] \x02verbatim:A\x05\nsend y\nline 4 [> ] \x02verbatim:C\x05\nlife 7 [> ] waits 0:\n",
        ),
    }
}

#[test]
fn answers_to_one_line(rt: HostRuntime) {
    for number in 0..6u32 {
        let (first, script, want) = of_one_line(number);
        assert!(rt;
            is_reported(rt.alloc(), first, script, want),
            "case {number}"
        );
    }
}

// The lines x and y wait, and x was sent. The pieces that follow, and what is reported.
fn of_two_lines(number: u32) -> (&'static str, &'static str) {
    match number {
        // Two answers in one piece.
        0 => (
            ">y\n\x02verbatim:\x05\n\x02verbatim:A\x05\x02verbatim:B\x05\n\x02verbatim:C\x05",
            "banner \x02verbatim:\x05\nsend x\nline 1 [> ] \x02verbatim:A\x05\nsend y\nline 2 [> ] \x02verbatim:C\x05\nlife 7 [> ] waits 0:\n",
        ),
        // Cut between two answers.
        1 => (
            ">y\n\x02verbatim:\x05\n\x02verbatim:A\x05\n\x02verbatim:B\x05",
            "banner \x02verbatim:\x05\nsend x\nline 1 [> ] \x02verbatim:A\x05\nsend y\nline 2 [> ] \x02verbatim:B\x05\nlife 7 [> ] waits 0:\n",
        ),
        // Cut inside the second answer.
        2 => (
            ">y\n\x02verbatim:\x05\n\x02verbatim:A\x05\x02verb\natim:B\x05\n\x02verbatim:C\x05",
            "banner \x02verbatim:\x05\nsend x\nline 1 [> ] \x02verbatim:A\x05\nsend y\nline 2 [> ] \x02verbatim:C\x05\nlife 7 [> ] waits 0:\n",
        ),
        // A fault after an answer.
        _ => (
            ">y\n\x02verbatim:\x05\n\x02verbatim:A\x05\x02:",
            "banner \x02verbatim:\x05\nsend x\nline 1 [> ] \x02verbatim:A\x05\nended BadTag lost 1\nlife 7 is over\n",
        ),
    }
}

#[test]
fn answers_to_two_lines(rt: HostRuntime) {
    for number in 0..4u32 {
        let (script, want) = of_two_lines(number);
        assert!(rt; is_reported(rt.alloc(), "x", script, want), "case {number}");
    }
}

// A request of completions waits first. What follows, and what is reported.
fn of_a_request(number: u32) -> (&'static str, &'static str) {
    match number {
        // A line after the request.
        0 => (
            ">y\n\x02verbatim:\x05\n\x02scheme:(tuple \"\" \"h\")\x02prompt#: \x05\x05\n\x02verbatim:A\x05",
            "banner \x02verbatim:\x05\nsend \x10(complete \"h\" 0)\ncompleted 1 [] [h]\nsend y\nline 2 [: ] \x02verbatim:A\x05\nlife 7 [: ] waits 0:\n",
        ),
        // A prompt block tells no completions.
        1 => (
            "\x02verbatim:\x05\n\x02prompt#a\x05",
            "banner \x02verbatim:\x05\nsend \x10(complete \"h\" 0)\ncompleted 1 []\nlife 7 [a] waits 0:\n",
        ),
        // A line of output tells none.
        2 => (
            "\x02verbatim:\x05\n\x02verbatim:A\x05",
            "banner \x02verbatim:\x05\nsend \x10(complete \"h\" 0)\ncompleted 1 bad\nlife 7 [> ] waits 0:\n",
        ),
        // The request waits, and it is no line.
        _ => ("", "life 7 [> ] waits 1:\n"),
    }
}

#[test]
fn answers_to_a_request(rt: HostRuntime) {
    for number in 0..4u32 {
        let (script, want) = of_a_request(number);
        assert!(rt;
            is_reported_after_a_request(rt.alloc(), script, want),
            "case {number}"
        );
    }
}
