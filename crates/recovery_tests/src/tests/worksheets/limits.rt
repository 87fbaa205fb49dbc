//! The limits, each met one op at a time. The fields of a worksheet are 10,000 at most, and its numbers 1,000,000.
use super::desk::is_reported;

// A script, and what is reported of it.
fn case(number: u32) -> (&'static str, &'static str) {
    match number {
        // Prompts have 1,024 bytes at most.
        0 => ("new 0 x\nprompt 1024\nprompt 1025", "ok\nok\n7 BadInput\n"),
        // The session after the last.
        1 => (
            "sessions 63\nsession s64 p|a b\ncounts\nwords s63",
            "all\n9 TooManySessions\nnext 1, sessions 64\nwords 2\n",
        ),
        // The field after the last.
        2 => (
            "behind 10000\nnew 0 x\nremove 1\nnew 0 x",
            "all\n10 TooManyFields\nok\nok\n",
        ),
        // Numbers are spent after a million.
        _ => (
            "numbers 1000000\ncounts\nnew 0 x",
            "all\nnext 1000001, sessions 1\n11 IdsSpent\n",
        ),
    }
}

#[test]
fn each_limit_is_met(rt: HostRuntime) {
    for number in 0..4u32 {
        let (script, want) = case(number);
        assert!(rt; is_reported(rt.alloc(), script, want), "case {number}");
    }
}
