//! Calls of the lower libraries that take no memory.
use block_tree::{Block, Node, Octets, Sequence, Tag, TagName};
use disk_model::{Area, Disk, FuseDisk, FuseMode, MemoryDisk};
use meta_format::{Reader, read_block};
use plugin_core::{Item, Life};
use std::alloc::Global;
use tests_desk::exhausted;
use worksheet::{Name, Op, Refusal, Sheet};

// Whether a reader has read so many bytes, and its open block begins there.
fn says(reader: &Reader, offset: u64, pending: Option<u64>) -> bool {
    reader.offset() == offset && reader.pending() == pending
}

fn says_without(alloc: Global, half: &Reader) -> bool {
    match exhausted(alloc) {
        Ok(_held) => says(half, 7, Some(1)) && says(&Reader::new(alloc), 0, None),
        Err(_) => false,
    }
}

fn half_read(alloc: Global) -> Option<Reader> {
    let mut half = Reader::new(alloc);
    let is_read = half.feed(b"x\x02verb:").is_ok();
    if is_read { Some(half) } else { None }
}

#[test]
fn readers_say_where_they_are(rt: HostRuntime) {
    let says = match half_read(rt.alloc()) {
        Some(half) => says_without(rt.alloc(), &half),
        None => false,
    };
    assert!(rt; says);
}

fn words(alloc: Global) -> Option<Vec<Octets>> {
    let mut words = Vec::new(alloc);
    words.push(Octets::from_slice(alloc, b"p").ok()?).ok()?;
    Some(words)
}

fn session(alloc: Global) -> Option<Op> {
    Some(Op::Session {
        name: Octets::from_slice(alloc, b"a").ok()?,
        tab: false,
        words: Sequence::from_vec(words(alloc)?),
    })
}

fn shows_no_field(sheet: &Sheet) -> bool {
    sheet.fields().next().is_none() && sheet.field(1).is_none() && sheet.next_id() == 1
}

fn shows_no_session(sheet: &Sheet) -> bool {
    sheet.sessions().next().is_none() && sheet.session(b"a").is_none()
}

fn checks(sheet: &Sheet, session: &Op, clear: &Op) -> bool {
    sheet.check(session).is_ok() && sheet.check(clear) == Err(Refusal::NoField)
}

fn has_room(sheet: &Sheet, session: &Op, clear: &Op) -> bool {
    !sheet.has_room(session) && sheet.has_room(clear)
}

// What an empty worksheet shows, and which ops it takes and has room for.
fn sheet_shows(sheet: &Sheet, session: &Op) -> bool {
    let clear = Op::Clear { id: 1 };
    let shows = shows_no_field(sheet) && shows_no_session(sheet);
    shows && checks(sheet, session, &clear) && has_room(sheet, session, &clear)
}

fn sheet_shows_without(alloc: Global, session: &Op) -> bool {
    match exhausted(alloc) {
        Ok(_held) => sheet_shows(&Sheet::new(alloc), session),
        Err(_) => false,
    }
}

#[test]
fn worksheets_show_and_check(rt: HostRuntime) {
    let shows = match session(rt.alloc()) {
        Some(session) => sheet_shows_without(rt.alloc(), &session),
        None => false,
    };
    assert!(rt; shows);
}

fn block(alloc: Global) -> Option<Block> {
    read_block(alloc, b"\x02a:x\x02b#\x05\x05").ok()
}

fn bare_node(alloc: Global) -> Option<Node> {
    let name = TagName::from_slice(alloc, b"a").ok()?;
    Some(Node {
        tag: Tag {
            channel: false,
            name,
        },
        items: Vec::new(alloc),
    })
}

fn are_equal(one: &Block, other: &Block) -> bool {
    one == other && one.node().items.len() == 2
}

fn is_made_apart(node: Node, other: &Block) -> bool {
    match Block::new(node) {
        Ok(made) => made != *other,
        Err(_) => false,
    }
}

fn compare_without(alloc: Global, node: Node, one: &Block, other: &Block) -> bool {
    match exhausted(alloc) {
        Ok(_held) => are_equal(one, other) && is_made_apart(node, one),
        Err(_) => false,
    }
}

fn compares(alloc: Global) -> Option<bool> {
    let node = bare_node(alloc)?;
    let one = block(alloc)?;
    let other = block(alloc)?;
    Some(compare_without(alloc, node, &one, &other))
}

#[test]
fn blocks_are_made_and_compared(rt: HostRuntime) {
    assert!(rt; compares(rt.alloc()) == Some(true));
}

// What a life with one line says.
fn says_what_waits(life: &Life) -> bool {
    let waits = life.waiting() == 1 && life.waits_for(1) && !life.waits_for(2);
    let is_first = life.first_line() == Some(1) && life.number() == 7;
    waits && is_first
}

fn shows_its_prompt(life: &Life) -> bool {
    life.prompt() == b"> ".as_slice()
}

fn life_says_without(alloc: Global, life: &Life) -> bool {
    match exhausted(alloc) {
        Ok(_held) => !life.over() && says_what_waits(life) && shows_its_prompt(life),
        Err(_) => false,
    }
}

fn life(alloc: Global) -> Option<Life> {
    let text = Octets::from_slice(alloc, b"x").ok()?;
    Life::begin(alloc, 7, Item::Line { id: 1, text }).ok()
}

#[test]
fn lives_say_what_waits(rt: HostRuntime) {
    let says = match life(rt.alloc()) {
        Some(life) => life_says_without(rt.alloc(), &life),
        None => false,
    };
    assert!(rt; says);
}

// A fuse that fails its first call passes nothing on.
fn fails(fused: &mut FuseDisk<MemoryDisk>) -> bool {
    let fails = fused.len(Area::First).is_err();
    let room = fused.room();
    fails && room == 100
}

fn is_new(disk: &MemoryDisk) -> bool {
    disk.calls() == 0 && disk.content(Area::Second).is_empty()
}

fn fuse_fails(disk: MemoryDisk) -> bool {
    let mut fused = FuseDisk::new(disk, 1, FuseMode::From);
    let fails = fails(&mut fused);
    let is_new = is_new(&fused.into_inner());
    fails && is_new
}

fn is_named() -> bool {
    Name::new(b"a").is_some() && Name::new(b"").is_none()
}

fn fails_without(alloc: Global, disk: MemoryDisk) -> bool {
    match exhausted(alloc) {
        Ok(_held) => fuse_fails(disk) && is_named(),
        Err(_) => false,
    }
}

#[test]
fn fuses_and_names(rt: HostRuntime) {
    let alloc = rt.alloc();
    assert!(rt; fails_without(alloc, MemoryDisk::new(alloc, 100)));
}
