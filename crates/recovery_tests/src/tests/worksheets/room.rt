//! Room for an op, and ops while no memory is left.
use super::desk::is_reported;

// A script, and what is reported of it.
fn without_memory(number: u32) -> (&'static str, &'static str) {
    match number {
        // An op comes back, or has its room.
        0 => (
            "room new 0 x\n-both new 0 x\nmake new 0 y\n-take new 0 y\nfirst",
            "no room\nno memory for room\n17 OutOfMemory\nroom\nok\n1 a y:\n",
        ),
        // A worksheet that gets no room is as before.
        _ => (
            "new 0 x\nmake session b p\n-both new 1 y\nsheet\nroom session b p\nroom new 1 y",
            "ok\nroom\nno memory for room\n17 OutOfMemory\nnext 2, sessions 1\n1 a x:\nroom\nno room\n",
        ),
    }
}

// No other case comes before them, since what it freed would be memory in many small blocks.
#[test]
fn ops_without_memory(rt: HostRuntime) {
    for number in 0..2u32 {
        let (script, want) = without_memory(number);
        assert!(rt; is_reported(rt.alloc(), script, want), "case {number}");
    }
}

// The same of room alone.
fn case(number: u32) -> (&'static str, &'static str) {
    match number {
        // Room for a field is no field.
        0 => (
            "make new 0 x\nfirst\nsheet\nset 1 x\nremove 1\nmove 1 0\nnew 1 x\nnew 0 x\nnew 1 y\nsheet",
            "room\nno field 1\nnext 1, sessions 1\n2 NoField\n2 NoField\n2 NoField\n2 NoField\nok\nok\nnext 3, sessions 1\n1 a x:\n2 a y:\n",
        ),
        // Room for a session is no session.
        1 => (
            "make session b p\nwords b\ncounts\nsession b \nsession b p\nsession b p\ncounts",
            "room\nno session\nnext 1, sessions 1\n6 BadWords\nok\n4 SessionExists\nnext 1, sessions 2\n",
        ),
        // Room for a field doesn't count.
        2 => (
            "front 9999\nmake new 0 x\nnew 0 x\nnew 0 x",
            "all\nroom\nok\n10 TooManyFields\n",
        ),
        // Room for a session doesn't count.
        3 => (
            "sessions 62\nmake session b p\ncounts\nsession c p\nsession b p",
            "all\nroom\nnext 1, sessions 63\nok\n9 TooManySessions\n",
        ),
        // Room is for the session that is named last.
        _ => (
            "make session b p\nmake session c p\nmake new 0 x\nroom session b p\nroom session c p\nsession b p\nsession c p\ncounts",
            "room\nroom\nroom\nno room\nroom\nok\nok\nnext 1, sessions 3\n",
        ),
    }
}

#[test]
fn room_is_no_change(rt: HostRuntime) {
    for number in 0..5u32 {
        let (script, want) = case(number);
        assert!(rt; is_reported(rt.alloc(), script, want), "case {number}");
    }
}
