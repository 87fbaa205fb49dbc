//! The program's own file code, with its programs above it, over files that crash at each moment: what is there opens to the worksheet
//! after what was acknowledged, or after the one line more that was being done.
use super::machine::{Folder, Machine};
use super::opened;
use arrivals::ScriptedSources;
use child_calls::Scripted;
use disk_model::{Choice, Fill};
use program_endings::{Resources, read_rescued, run_create, run_rescue, run_script, run_show};
use std::alloc::Global;

/// What a crash leaves of the ranges that were being written.
const FILLS: [(Fill, bool); 5] = [
    (Fill::Old, false),
    (Fill::New, true),
    (Fill::Torn(3), true),
    (Fill::Torn(20), false),
    (Fill::Byte(0x52), true),
];

// What is printed of the worksheet of a folder; nothing where it has none.
fn shown(alloc: Global, folder: &Folder) -> Option<Vec<u8>> {
    let machine = Machine { folder };
    let mut text: Vec<u8> = Vec::new(alloc);
    let mut errors: Vec<u8> = Vec::new(alloc);
    let files = opened::open_to_read(&machine, alloc, "sheet");
    let ended = run_show(alloc, files, &mut text, &mut errors);
    if ended.status == 0 { Some(text) } else { None }
}

// Whether a program that makes a worksheet ends well.
fn creates(alloc: Global, folder: &Folder) -> bool {
    let mut errors: Vec<u8> = Vec::new(alloc);
    let files = opened::create(&Machine { folder }, alloc, "sheet");
    run_create(files, &mut errors).status == 0
}

// Whether a run of this script ends well, and tells this. No interpreter can be started.
fn runs(alloc: Global, folder: &Folder, script: &[u8], reported: &[u8]) -> bool {
    let children = Scripted::new(alloc, Vec::new(alloc));
    let sources = ScriptedSources::new(children, Vec::new(alloc));
    let mut input = script;
    let mut errors: Vec<u8> = Vec::new(alloc);
    let given = Resources {
        files: opened::open(&Machine { folder }, alloc, "sheet"),
        sources,
        output: Vec::new(alloc),
    };
    let done = run_script(alloc, false, &mut input, given, &mut errors);
    done.ending.status == 0 && done.output.as_slice() == reported
}

// Whether what is rescued of one folder is written to another one, and this is printed.
fn rescues(alloc: Global, from: &Folder, to: &Folder, reported: &[u8]) -> bool {
    let mut text: Vec<u8> = Vec::new(alloc);
    let mut errors: Vec<u8> = Vec::new(alloc);
    let files = opened::open_to_read(&Machine { folder: from }, alloc, "sheet");
    let Ok(found) = read_rescued(alloc, files) else {
        return false;
    };
    let made = opened::create(&Machine { folder: to }, alloc, "sheet");
    let ended = run_rescue(alloc, found, made, &mut text, &mut errors);
    ended.status == 0 && text.as_slice() == reported
}

// A folder with the same files, of which no write is on record.
fn copied(folder: &Folder) -> Option<Folder> {
    folder.crash(&Choice {
        moment: folder.moment(),
        fill: Fill::New,
        grown: true,
    })
}

// What a whole folder shows: a copy is looked at, so nothing is done to the folder.
fn shown_now(alloc: Global, folder: &Folder) -> Option<Vec<u8>> {
    shown(alloc, &copied(folder)?)
}

/// What a folder may show: before a program, while it is at it, and from the moment on when it reported that it
/// was done.
#[derive(Drop)]
struct Kept<'a> {
    before: &'a Option<Vec<u8>>,
    between: &'a Option<Vec<u8>>,
    after: &'a Option<Vec<u8>>,
    reported: u64,
}

impl Kept<'_> {
    fn allows(&self, moment: u64, found: &Option<Vec<u8>>) -> bool {
        found == self.after
            || (moment < self.reported && (found == self.before || found == self.between))
    }

    // Whether a crash at this moment leaves what it may.
    fn is_left(&self, alloc: Global, folder: &Folder, moment: u64) -> bool {
        for (fill, grown) in FILLS {
            let choice = Choice {
                moment,
                fill,
                grown,
            };
            let Some(crashed) = folder.crash(&choice) else {
                return false;
            };
            if !self.allows(moment, &shown(alloc, &crashed)) {
                return false;
            }
        }
        true
    }

    // Whether a crash does so at each moment from this one on.
    fn is_left_from(&self, alloc: Global, folder: &Folder, from: u64) -> bool {
        for moment in from..self.reported.saturating_add(1) {
            if !self.is_left(alloc, folder, moment) {
                return false;
            }
        }
        true
    }
}

// Whether a worksheet is made so that a crash leaves none, or an empty one.
fn making_keeps(alloc: Global, folder: &Folder) -> bool {
    let made = creates(alloc, folder);
    let kept = Kept {
        before: &None,
        between: &None,
        after: &Some(Vec::new(alloc)),
        reported: folder.moment(),
    };
    made && kept.is_left_from(alloc, folder, 0)
}

// Whether a run ends well, and a crash leaves the worksheet before it or after it: the latter once the run was acknowledged.
fn run_keeps(alloc: Global, folder: &Folder, script: &[u8], reported: &[u8]) -> bool {
    let from = folder.moment();
    let before = shown_now(alloc, folder);
    if !runs(alloc, folder, script, reported) {
        return false;
    }
    let kept = Kept {
        before: &before,
        between: &before,
        after: &shown_now(alloc, folder),
        reported: folder.moment(),
    };
    kept.is_left_from(alloc, folder, from)
}

/// Lines of a script, and what is printed of them.
type Step = (&'static [u8], &'static [u8]);

const BEGINNING: [Step; 3] = [
    (b"session a plain p\n", b"ok\n"),
    (b"new 0 a first\n", b"field 1\n"),
    (b"new 1 a second\n", b"field 2\n"),
];

const ROUND: [Step; 8] = [
    (b"set 1 a longer input of the first field\n", b"ok\n"),
    (b"move 2 0\n", b"ok\n"),
    (b"eval 1\nwait\n", b"asked\nended a StartRefused lost 1\n"),
    (b"checkpoint\n", b"ok\n"),
    (b"set 2 x\n", b"ok\n"),
    (b"clear 1\n", b"ok\n"),
    (b"move 2 1\n", b"ok\n"),
    (b"checkpoint\n", b"ok\n"),
];

fn steps_keep(alloc: Global, folder: &Folder, steps: &[Step]) -> bool {
    for (script, reported) in steps {
        if !run_keeps(alloc, folder, script, reported) {
            return false;
        }
    }
    true
}

// The folder of a worksheet that was kept while it was changed in so many rounds, and how many moments these had. Each
// round begins with a record of its own, so that a crash needn't go through all.
fn rounds_keep(alloc: Global, folder: Folder, rounds: u32) -> Option<(Folder, u64)> {
    let mut last = folder;
    let mut moments = last.moment();
    for _ in 0..rounds {
        let next = copied(&last)?;
        if !steps_keep(alloc, &next, &ROUND) {
            return None;
        }
        moments = moments.saturating_add(next.moment());
        last = next;
    }
    Some((last, moments))
}

// The same of one that is made in this folder.
fn story_keeps(alloc: Global, folder: Folder, rounds: u32) -> Option<(Folder, u64)> {
    if making_keeps(alloc, &folder) && steps_keep(alloc, &folder, &BEGINNING) {
        rounds_keep(alloc, folder, rounds)
    } else {
        None
    }
}

const LAST: &[u8] = b"#1 a\n> a longer input of the first field\n?\n#2 a\n> x\n?\n";

fn shows_now(alloc: Global, folder: &Folder, text: &[u8]) -> bool {
    match shown_now(alloc, folder) {
        Some(shown) => shown.as_slice() == text,
        None => false,
    }
}

// Whether so many rounds have this many moments at least, and leave the last worksheet.
fn lasts(alloc: Global, rounds: u32, least: u64) -> bool {
    match story_keeps(alloc, Folder::new(alloc), rounds) {
        Some((folder, moments)) => moments >= least && shows_now(alloc, &folder, LAST),
        None => false,
    }
}

#[test]
fn a_crash_at_each_moment_of_runs_and_checkpoints(rt: HostRuntime) {
    assert!(rt; lasts(rt.alloc(), 11, 500));
}

// Whether a rescue ends well, and a crash leaves no worksheet, an empty one or all that was kept: the last once
// the rescue was acknowledged. The old worksheet stays as it is.
fn rescue_keeps(alloc: Global, from: &Folder, to: &Folder, reported: &[u8]) -> bool {
    let whole = shown_now(alloc, from);
    let rescued = rescues(alloc, from, to, reported);
    let kept = Kept {
        before: &None,
        between: &Some(Vec::new(alloc)),
        after: &whole,
        reported: to.moment(),
    };
    rescued && kept.is_left_from(alloc, to, 0) && shown_now(alloc, from) == whole
}

#[test]
fn a_crash_at_each_moment_of_a_rescue(rt: HostRuntime) {
    let from = Folder::new(rt.alloc());
    let to = Folder::new(rt.alloc());
    assert!(rt; creates(rt.alloc(), &from));
    let script = b"session a plain p\nnew 0 a first\ncheckpoint\nset 1 second\n";
    assert!(rt; runs(rt.alloc(), &from, script, b"ok\nfield 1\nok\nok\n"));
    assert!(rt; rescue_keeps(rt.alloc(), &from, &to, b"kept 3, whole\n"));
    assert!(rt; to.moment() >= 8, "{} moments", to.moment());
}
