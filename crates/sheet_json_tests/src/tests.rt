//! Lines, byte for byte.
use meta_format::read_block;
use serde_json::Value;
use sheet_json::{
    answered_value, asked_value, bad_value, banner_value, block_value, bytes_value, default_value,
    end_value, exported_value, fault_value, hello_value, line_bytes, made_value, nothing_value,
    refused_value, waited_value, whole_value,
};
use std::alloc::{AllocError, Global};
use worksheet::{Refusal, Sheet};

/// Whether a value has this line.
fn has_line(alloc: Global, made: Result<Value, AllocError>, text: &[u8]) -> bool {
    let Ok(value) = made else {
        return false;
    };
    let Ok(bytes) = line_bytes(alloc, &value) else {
        return false;
    };
    bytes.as_slice() == text
}

/// The line of the block that these bytes spell.
fn block_has_line(alloc: Global, spelled: &[u8], text: &[u8]) -> bool {
    match read_block(alloc, spelled) {
        Ok(block) => has_line(alloc, block_value(alloc, &block), text),
        Err(_) => false,
    }
}

/// The line of an answer with the block that these bytes spell.
fn answer_has_line(alloc: Global, prompt: &[u8], spelled: &[u8], text: &[u8]) -> bool {
    match read_block(alloc, spelled) {
        Ok(block) => has_line(
            alloc,
            answered_value(alloc, b"b", 2, 7, prompt, &block, Some(b"next> ")),
            text,
        ),
        Err(_) => false,
    }
}

/// The line of a banner with the block that these bytes spell.
fn banner_has_line(alloc: Global, spelled: &[u8], text: &[u8]) -> bool {
    match read_block(alloc, spelled) {
        Ok(block) => has_line(alloc, banner_value(alloc, b"b", 2, &block, None), text),
        Err(_) => false,
    }
}

#[test]
fn replies_have_their_lines(rt: HostRuntime) {
    let alloc = rt.alloc();
    assert!(rt;
        has_line(
            alloc,
            made_value(alloc, 3, 1),
            b"{\"id\":1,\"line\":3,\"type\":\"made\"}\n"
        )
    );
    assert!(rt;
        has_line(
            alloc,
            asked_value(alloc, 6, 1),
            b"{\"life\":1,\"line\":6,\"type\":\"asked\"}\n"
        )
    );
    assert!(rt;
        has_line(
            alloc,
            refused_value(alloc, 8, Refusal::InFlight),
            b"{\"line\":8,\"name\":\"InFlight\",\"number\":3,\"type\":\"refused\"}\n"
        )
    );
    assert!(rt;
        has_line(
            alloc,
            bad_value(alloc, 14),
            b"{\"line\":14,\"type\":\"bad\"}\n"
        )
    );
}

#[test]
fn lines_that_do_nothing_and_waits_have_theirs(rt: HostRuntime) {
    let alloc = rt.alloc();
    assert!(rt;
        has_line(
            alloc,
            nothing_value(alloc, 5),
            b"{\"line\":5,\"type\":\"nothing\"}\n"
        )
    );
    assert!(rt;
        has_line(
            alloc,
            waited_value(alloc, 10, false),
            b"{\"line\":10,\"over\":\"idle\",\"type\":\"waited\"}\n"
        )
    );
}

#[test]
fn exports_have_their_lines(rt: HostRuntime) {
    let alloc = rt.alloc();
    assert!(rt;
        has_line(
            alloc,
            exported_value(alloc, 3, "html", Some(b"<p>\n".as_slice())),
            b"{\"format\":\"html\",\"line\":3,\"text\":\"<p>\\n\",\"type\":\"exported\"}\n"
        )
    );
    assert!(rt;
        has_line(
            alloc,
            exported_value(alloc, 4, "markdown", Some(b"\xe9".as_slice())),
            b"{\"format\":\"markdown\",\"line\":4,\"text\":{\"base64\":\"6Q==\"},\"type\":\"exported\"}\n"
        )
    );
    assert!(rt;
        has_line(
            alloc,
            exported_value(alloc, 5, "script", None),
            b"{\"format\":\"script\",\"line\":5,\"text\":null,\"type\":\"exported\"}\n"
        )
    );
}

#[test]
fn ends_have_their_lines(rt: HostRuntime) {
    let alloc = rt.alloc();
    assert!(rt;
        has_line(
            alloc,
            hello_value(alloc),
            b"{\"format\":1,\"program\":\"tmhost\",\"protocol\":2,\"type\":\"hello\",\"version\":\"0.1.0\"}\n"
        )
    );
    assert!(rt; has_line(alloc, end_value(alloc), b"{\"type\":\"end\"}\n"));
    assert!(rt;
        has_line(
            alloc,
            fault_value(alloc, 30, "Damaged", Some(11)),
            b"{\"name\":\"Damaged\",\"number\":30,\"offset\":11,\"type\":\"fault\"}\n"
        )
    );
    assert!(rt;
        has_line(
            alloc,
            fault_value(alloc, 43, "OutOfMemory", None),
            b"{\"name\":\"OutOfMemory\",\"number\":43,\"type\":\"fault\"}\n"
        )
    );
}

#[test]
fn bytes_have_their_lines(rt: HostRuntime) {
    let alloc = rt.alloc();
    assert!(rt;
        has_line(
            alloc,
            bytes_value(alloc, b"caf\xe9"),
            b"{\"base64\":\"Y2Fm6Q==\"}\n"
        )
    );
    assert!(rt;
        has_line(
            alloc,
            bytes_value(alloc, b"caf\xc3\xa9"),
            b"\"caf\xc3\xa9\"\n"
        )
    );
    assert!(rt;
        has_line(
            alloc,
            bytes_value(alloc, b"{\"type\":\"end\"}\n"),
            b"\"{\\\"type\\\":\\\"end\\\"}\\n\"\n"
        )
    );
    assert!(rt;
        has_line(
            alloc,
            bytes_value(alloc, b"\x00\x1b\x7f\r"),
            b"\"\\u0000\\u001b\x7f\\r\"\n"
        )
    );
    assert!(rt; has_line(alloc, bytes_value(alloc, b""), b"\"\"\n"));
}

#[test]
fn blocks_have_their_lines(rt: HostRuntime) {
    let alloc = rt.alloc();
    assert!(rt;
        block_has_line(
            alloc,
            b"\x02verbatim:answered 3\x05",
            b"{\"items\":[\"answered 3\"],\"kind\":\"format\",\"tag\":\"verbatim\"}\n"
        )
    );
    assert!(rt;
        block_has_line(
            alloc,
            b"\x02\xe9#\x05",
            b"{\"items\":[],\"kind\":\"channel\",\"tag\":{\"base64\":\"6Q==\"}}\n"
        )
    );
    assert!(rt;
        block_has_line(
            alloc,
            b"\x02verbatim:\x02latex:$x^2$\x05\n\x05",
            b"{\"items\":[{\"items\":[\"$x^2$\"],\"kind\":\"format\",\"tag\":\"latex\"},\"\\n\"],\"kind\":\"format\",\"tag\":\"verbatim\"}\n"
        )
    );
}

#[test]
fn events_have_their_lines(rt: HostRuntime) {
    let alloc = rt.alloc();
    assert!(rt;
        banner_has_line(
            alloc,
            b"\x02verbatim:Python\x05",
            b"{\"life\":2,\"next\":null,\"output\":{\"items\":[\"Python\"],\"kind\":\"format\",\"tag\":\"verbatim\"},\"session\":\"b\",\"shown\":\"Python\",\"type\":\"banner\"}\n"
        )
    );
    assert!(rt;
        answer_has_line(
            alloc,
            b">>> ",
            b"\x02verbatim:caf\xe9\x05",
            b"{\"id\":7,\"life\":2,\"next\":\"next> \",\"output\":{\"items\":[{\"base64\":\"Y2Fm6Q==\"}],\"kind\":\"format\",\"tag\":\"verbatim\"},\"prompt\":\">>> \",\"session\":\"b\",\"shown\":{\"base64\":\"Y2Fm6Q==\"},\"type\":\"answered\"}\n"
        )
    );
    assert!(rt;
        answer_has_line(
            alloc,
            b"In 1] ",
            b"\x02latex:$x^2$\x05",
            b"{\"id\":7,\"life\":2,\"next\":\"next> \",\"output\":{\"items\":[\"$x^2$\"],\"kind\":\"format\",\"tag\":\"latex\"},\"prompt\":\"In 1] \",\"session\":\"b\",\"shown\":\"{latex:$x^2$}\",\"type\":\"answered\"}\n"
        )
    );
    assert!(rt;
        has_line(
            alloc,
            default_value(alloc, b"b", 2, b"print("),
            b"{\"life\":2,\"session\":\"b\",\"text\":\"print(\",\"type\":\"default\"}\n"
        )
    );
}

#[test]
fn an_empty_worksheet_has_its_line(rt: HostRuntime) {
    let alloc = rt.alloc();
    let sheet = Sheet::new(alloc);
    assert!(rt;
        has_line(
            alloc,
            whole_value(alloc, &sheet),
            b"{\"fields\":[],\"next\":1,\"sessions\":[],\"type\":\"sheet\"}\n"
        )
    );
}
