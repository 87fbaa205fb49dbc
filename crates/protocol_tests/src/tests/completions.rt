//! What no clause says: that these calls succeed where memory is to be had, what they give in
//! worked examples, and that lack of memory is reported.
use block_tree::{Block, Octets, Sequence, output_of};
use meta_format::read_block;
use scheme_text::{AnswerFault, Completions, read_answer, write_request};
use std::alloc::Global;
use tests_desk::exhausted;

// Whether the request is this one. The cursor stands neither inside a character nor after the end.
fn asks(alloc: Global, input: &str, cursor: usize, want: &[u8]) -> bool {
    if !input.is_char_boundary(cursor) {
        return false;
    }
    match write_request(alloc, input, cursor) {
        Ok(bytes) => bytes.as_slice() == want,
        Err(_) => false,
    }
}

#[test]
fn requests_have_input_and_cursor(rt: HostRuntime) {
    assert!(rt; asks(rt.alloc(), "h", 1, b"\x10(complete \"h\" 1)\n"));
    assert!(rt; asks(rt.alloc(), "", 0, b"\x10(complete \"\" 0)\n"));
    assert!(rt;
        asks(
            rt.alloc(),
            "a\"b\\n",
            5,
            b"\x10(complete \"a\\\"b\\\\n\" 5)\n"
        )
    );
}

#[test]
fn cursors_count_bytes(rt: HostRuntime) {
    assert!(rt; asks(rt.alloc(), "é", 2, b"\x10(complete \"\xc3\xa9\" 2)\n"));
    assert!(rt; !"é".is_char_boundary(1) && !"é".is_char_boundary(3));
}

// Root and completions with a bar between them.
fn joined(alloc: Global, completions: &Completions) -> Option<Vec<u8>> {
    let mut text = Vec::from_slice(alloc, completions.root.as_slice()).ok()?;
    for completion in completions.rest.as_slice() {
        text.push(b'|').ok()?;
        text.extend_from_slice(completion.as_slice()).ok()?;
    }
    Some(text)
}

// What an output tells, or `bad`.
fn reported_by(alloc: Global, output: &Block) -> Option<Vec<u8>> {
    match read_answer(alloc, output) {
        Ok(completions) => joined(alloc, &completions),
        Err(AnswerFault::BadCompletion) => Vec::from_slice(alloc, b"bad").ok(),
        Err(AnswerFault::OutOfMemory) => None,
    }
}

// What the answer with this spelling tells.
fn reported(alloc: Global, spelling: &[u8]) -> Option<Vec<u8>> {
    let block = read_block(alloc, spelling).ok()?;
    reported_by(alloc, &output_of(alloc, &block).ok()?)
}

fn tells(alloc: Global, spelling: &[u8], want: &[u8]) -> bool {
    match reported(alloc, spelling) {
        Some(text) => text.as_slice() == want,
        None => false,
    }
}

#[test]
fn four_completions(rt: HostRuntime) {
    let answer = b"\x02scheme:(tuple \"h\" \"ello\" \"i there\" \"ola\" \"opsakee\")\x05";
    assert!(rt; tells(rt.alloc(), answer, b"h|ello|i there|ola|opsakee"));
}

// The last is a block whose output is an empty one of the format `verbatim`.
#[test]
fn no_completions(rt: HostRuntime) {
    for answer in [
        b"\x02scheme:\"\"\x05".as_slice(),
        b"\x02scheme:\x05",
        b"\x02scheme:(tuple)\x05",
        b"\x02scheme: ( tuple )\n\x05",
        b"\x02scheme:(tuple \"\")\x05",
        b"\x02verbatim:\x05",
        b"\x02verbatim:\t\n\x0c\r \x05",
        b"\x02verbatim: \x02scheme:\x05\n\x05",
        b"\x02scheme:\x02prompt#> \x05\x05",
        b"\x02prompt#(tuple 3)\x05",
    ] {
        assert!(rt; tells(rt.alloc(), answer, b""));
    }
}

#[test]
fn strings_and_white_space(rt: HostRuntime) {
    for (answer, text) in [
        (
            b"\x02scheme:(tuple\"a\"\"b\")\x05".as_slice(),
            b"a|b".as_slice(),
        ),
        (b"\x02scheme:\n(\ttuple \"a\" \"b\" )\r\n\x05", b"a|b"),
        (
            b"\x02scheme:(tuple \"a\\\"b\" \"\\\\\" \"\\n\")\x05",
            b"a\"b|\\|\\n",
        ),
        (b"\x02scheme:(tuple \"(a)\" \"\")\x05", b"(a)|"),
        (b"\x02verbatim: \x02scheme:(tuple \"a\")\x05\n\x05", b"a"),
        (b"\x02scheme:(tuple \x02prompt#> \x05\"a\")\x05", b"a"),
    ] {
        assert!(rt; tells(rt.alloc(), answer, text));
    }
}

#[test]
fn bad_answers(rt: HostRuntime) {
    for answer in [
        b"\x02scheme:(tuple 3)\x05".as_slice(),
        b"\x02scheme:(tuple a)\x05",
        b"\x02scheme:(\"tuple\")\x05",
        b"\x02scheme:(tuple (\"a\"))\x05",
        b"\x02scheme:(tuple \"a)\x05",
        b"\x02scheme:(tuple \"a\"\x05",
        b"\x02scheme:(tuple \"a\\\")\x05",
        b"\x02scheme:(tuple) b\x05",
        b"\x02scheme:\"a\"\x05",
        b"\x02scheme:\" \"\x05",
        b"\x02scheme:\x0b\x05",
        b"\x02scheme#\x05",
        b"\x02latex:\x05",
        b"\x02scheme:\x02verbatim:\x05\x05",
        b"\x02verbatim:h\x05",
        b"\x02verbatim:\x02scheme:\x05\x02scheme:\x05\x05",
        b"\x02verbatim:\x02scheme:\x05b\x05",
        b"\x02verbatim:\x02scheme:\x02verbatim:\x05\x05\x05",
    ] {
        assert!(rt; tells(rt.alloc(), answer, b"bad"));
    }
}

fn completions(alloc: Global, root: &[u8], rest: &[u8]) -> Option<Completions> {
    let mut strings = Vec::new(alloc);
    strings.push(Octets::from_slice(alloc, rest).ok()?).ok()?;
    Some(Completions {
        root: Octets::from_slice(alloc, root).ok()?,
        rest: Sequence::from_vec(strings),
    })
}

// Whether completions with this root and this one after it equal `h` with `ello`.
fn is_equal(alloc: Global, root: &[u8], rest: &[u8]) -> Option<bool> {
    let value = completions(alloc, b"h", b"ello")?;
    Some(value == completions(alloc, root, rest)?)
}

#[test]
fn equal_and_unequal_completions(rt: HostRuntime) {
    assert!(rt; is_equal(rt.alloc(), b"h", b"ello") == Some(true));
    assert!(rt; is_equal(rt.alloc(), b"h", b"ola") == Some(false));
    assert!(rt; is_equal(rt.alloc(), b"j", b"ello") == Some(false));
}

// The fault of an answer while no memory is left.
fn fault_without_memory(alloc: Global, answer: &Block) -> Option<AnswerFault> {
    match exhausted(alloc) {
        Ok(_held) => read_answer(alloc, answer).err(),
        Err(_) => None,
    }
}

fn fault_of_two(alloc: Global) -> Option<AnswerFault> {
    let answer = read_block(alloc, b"\x02scheme:(tuple \"h\" \"ello\")\x05").ok()?;
    fault_without_memory(alloc, &answer)
}

#[test]
fn an_answer_without_memory(rt: HostRuntime) {
    assert!(rt; fault_of_two(rt.alloc()) == Some(AnswerFault::OutOfMemory));
}

// Whether a request is refused while no memory is left.
fn is_refused(alloc: Global) -> bool {
    match exhausted(alloc) {
        Ok(_held) => write_request(alloc, "h", 1).is_err(),
        Err(_) => false,
    }
}

#[test]
fn a_request_without_memory(rt: HostRuntime) {
    assert!(rt; is_refused(rt.alloc()));
}
