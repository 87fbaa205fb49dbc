//! Worked examples.
use super::desk::is_reported;

// A script, and what is reported of it.
fn case(number: u32) -> (&'static str, &'static str) {
    match number {
        // A removed number is not given out again.
        0 => (
            "counts\nnew 0 x\nremove 1\ncounts\nnew 0 y\nmove 2 2\nnew 1 z\nsheet",
            "next 1, sessions 1\nok\nok\nnext 2, sessions 1\nok\n8 SamePlace\n2 NoField\nnext 3, sessions 1\n2 a y:\n",
        ),
        // A field moves to the front once.
        1 => (
            "new 0 x\nnew 1 x\nnew 2 x\nmove 3 0\nmove 3 0\nsheet",
            "ok\nok\nok\nok\n8 SamePlace\nnext 4, sessions 1\n3 a x:\n1 a x:\n2 a x:\n",
        ),
        // A new input takes the answer away.
        2 => (
            "new 0 x\nanswer 1 > \nfirst\nset 1 \nfirst",
            "ok\nok\n1 a x: answered > A\nok\n1 a :\n",
        ),
        // The last answer or reason counts.
        3 => (
            "ended 1\nnew 0 x\nanswer 1 > \nended 1\nfirst\nstopped 1\nfirst\nanswer 1 > \nfirst\nended 1\nset 1 y\nfirst",
            "2 NoField\nok\nok\nok\n1 a x: lost Ended\nok\n1 a x: lost Stopped\nok\n1 a x: answered > A\nok\nok\n1 a y:\n",
        ),
        // What is refused, and why.
        _ => (
            "new 0 \x10\nsession a/b p\nsession b \nsession a p\nsheet",
            "7 BadInput\n5 BadName\n6 BadWords\n4 SessionExists\nnext 1, sessions 1\n",
        ),
    }
}

#[test]
fn worked_examples(rt: HostRuntime) {
    for number in 0..5u32 {
        let (script, want) = case(number);
        assert!(rt; is_reported(rt.alloc(), script, want), "case {number}");
    }
}
