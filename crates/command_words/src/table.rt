//! The table of the subcommands: who adds one adds a row here, and one in `specs/inside/Rows.antt`.
ghost use Rattle.std.specs.Prelude.{◌≡◌, ◌<◌};
ghost use Rattle.command_words.specs.inside.Rows.{IsRow};

/// Which words a subcommand has.
#[derive(Clone, Copy, Debug, PartialEq, Eq)]
pub(crate) enum Shape {
    /// The flag `--json`.
    Stream,
    /// PATH.
    Path,
    /// PATH, and the flags of `run`.
    Run,
    /// PATH, and the flags `--json` and `--partial`.
    Live,
    /// PATH, the flag `--json`, and the number of a change.
    Show,
    /// PATH and numbers of fields, and the flags and options of an evaluation.
    Eval,
    /// PATHs, the flag `--json`, and the options of a report and of which fields it is about.
    Check,
    /// PATH and NEW.
    Paths,
    /// FORMAT and PATH, and the number of a change.
    Format,
    /// PATH, the number of a change, and NEW.
    Earlier,
    /// None; its help is all that it has.
    Help,
}

/// A row of the table.
#[derive(Clone, Copy)]
pub(crate) struct Row {
    pub(crate) name: &'static str,
    pub(crate) shape: Shape,
    pub(crate) about: &'static str,
    pub(crate) notes: &'static str,
}

/// What the help of the program says below its lists.
pub(crate) const NOTES: &str = "Without a command it is `blocks`.\n\n\
Status: 0 where the input came to its end, or help was shown; 1 at a fault, which\n\
standard error has as `fault N NAME`, where the stream of `blocks` has a fault or\n\
an open block, where an answer of `check` didn't come, or differs and isn't\n\
accepted, and where `eval` has a field unanswered, over or passed; 2 where the\n\
words are refused; 3 where --strict stops.\n\
`tmhost help faults` says what each fault means.\n\n\
Example: tmhost create sheet && tmhost run sheet <script.txt";

const BLOCKS_ABOUT: &str = "Write the blocks of the stream on standard input, a line each";

const BLOCKS_NOTES: &str =
    "A line is the offset of the block's first byte, the offset after its last one,\n\
and the block with its tags. With --json each line is one object, which programs\n\
read (docs/use/JSON.md).\n\n\
Status: 0 where the stream is whole; 1 where it has a fault or an open block, or\n\
at a fault of the program; 2 where the words are refused.\n\n\
Example: printf '\\002verbatim:Hi\\005' | tmhost blocks";

const CREATE_ABOUT: &str = "Make an empty worksheet";

const CREATE_NOTES: &str =
    "Where PATH or PATH.alt exists nothing is made, and the fault is 34 NotEmpty.\n\
A creation that was cut off may leave files that are no worksheet, which `run`\n\
reports as the fault 31: remove PATH and PATH.alt, and create it again.\n\n\
Status: 0 where the worksheet is on the disk; 1 at a fault; 2 where the words are\n\
refused.\n\n\
Example: tmhost create sheet";

const RUN_ABOUT: &str = "Run the script on standard input over a worksheet";

const RUN_NOTES: &str = "The script is read from standard input. What each line of it gives is\n\
written before the next one is taken, but lines that only change the worksheet\n\
are taken together; what it reports as done is on the disk.\n\
Where another program has the worksheet the script isn't read and nothing is\n\
done: that is the fault 35 InUse.\n\n\
With --strict it stops after the first line that is bad or refused, or by which\n\
lines were lost since an interpreter ended: what that line gives is written, what\n\
was reported is on the disk, and standard error has `stopped at line N`.\n\n\
With --json each line is one object, which programs read (docs/use/JSON.md). With\n\
--timeout SECONDS (1 to 1,000,000) the interpreters that are at something are sent\n\
SIGINT where a line takes longer in a `wait`, reported as of `interrupt NAME`, and\n\
are stopped where they haven't answered two seconds later. With either, and where\n\
the script has `print ID`, `wait SECONDS`, `interrupt NAME`, `export FORMAT`,\n\
`begin` or `end`, lines are those of `live`, each taken in its turn, but while no\n\
`wait` holds lines back nothing is taken of an interpreter. With --strict a time\n\
that is over is wrong.\n\n\
Status: 0 where the script ran to its end, without --strict also where it has bad\n\
lines and refused commands; 1 at a fault; 2 where the words are refused; 3 where\n\
--strict stopped it.\n\n\
Example: tmhost run sheet <script.txt";

const LIVE_ABOUT: &str = "Hold a worksheet open for lines that come on standard input";

const LIVE_NOTES: &str =
    "Each line of standard input is taken when it comes, and what an interpreter\n\
writes is taken when it comes: what either gives is written and flushed at once,\n\
and what it reports as done is on the disk. Lines are those of `run`, of 65,536\n\
bytes at most, and `print ID`, `wait SECONDS`, `export FORMAT`, which writes what\n\
`export` does, and `interrupt NAME`, which sends SIGINT to an interpreter that is\n\
at something. A `wait` holds back the lines after it until no answer is awaited,\n\
or its time is over. Commands between `begin` and `end`, which only change the\n\
worksheet, are all done or none, where one is refused and after a crash. At the\n\
end of the input each interpreter is stopped.\n\n\
With --json each line is one object, which programs read (docs/use/JSON.md). With\n\
--partial it is too, and what an interpreter writes that ends no block is written\n\
at once: nothing of it is kept, and it is no answer.\n\n\
Status: 0 where the input came to its end, also where it had bad lines and refused\n\
commands; 1 at a fault; 2 where the words are refused.\n\n\
Example: printf 'print\\n' | tmhost live sheet";

const EVAL_ABOUT: &str = "Evaluate the fields of a worksheet";

const EVAL_NOTES: &str =
    "It evaluates the fields of each session in the worksheet's order, each by an `eval`\n\
and a `wait`, and writes what `live` writes of these. Each answer that it reports is\n\
on the disk. Interpreters start empty; at the end each is stopped. A line at the end\n\
has the counts of the whole worksheet, as `answered 12 unanswered 1`. A line\n\
`errors 3` comes after it where so many fields show an answer that is an error.\n\n\
With IDs only the fields with these numbers are evaluated, each once; with --from\n\
the field with this number and those after it. Both at once are refused. Variables\n\
of fields that aren't evaluated are missing. Where no field has one of the numbers\n\
nothing is evaluated: that is the fault 37 NoField. Nor is anything where the\n\
program of a session isn't there: 44 NoProgram. With --unanswered only those of\n\
all, of the IDs or from the ID on that show no answer are evaluated.\n\n\
With --changed the sessions in which a field shows no answer are evaluated, each\n\
from its first field on; the others keep what they show. A field shows none after\n\
each change of it; one that was removed or moved leaves no trace. It goes with no\n\
IDs, no --from and no --unanswered.\n\n\
Prose is passed over and not counted, but where its ID is given: fields of a\n\
session whose program is `true` alone.\n\n\
With --strict it stops after the first field that is lost or refused: the fields\n\
after it keep what they show, and standard error has `stopped at field ID`. With\n\
--stop-at-error it does so, and also after a field whose answer its interpreter\n\
marks as an error.\n\n\
Where a field shows no answer, since its interpreter ended or didn't start, the\n\
later ones of its session are passed over: they keep what they show. With\n\
--keep-going none is passed over, and the next one starts another interpreter.\n\n\
With --timeout SECONDS (1 to 1,000,000) the interpreter of a field that takes\n\
longer is sent SIGINT, which is reported as `over ID`, and is stopped where it\n\
hasn't answered two seconds later. A start has a time of its own, as long. A line\n\
`over 1 passed 12` has these counts, with --timeout and where some were passed\n\
over. With --json each line is one object (docs/use/JSON.md).\n\n\
Fields of up to 64 sessions wait at a time, of each session one: first the first\n\
field of each session is asked, then the second of each, and so on. With --strict,\n\
--stop-at-error and --timeout one field goes after another, in the worksheet's\n\
order. With --jobs N (1 to 64) fields of up to N sessions wait at a time, and with\n\
--timeout the time of those begins when the last of them was asked, and again at\n\
each banner or answer of one. It goes with no --strict and no --stop-at-error.\n\n\
Status: 0 where each field but prose shows an answer, and none was over or\n\
passed over; 1 where that isn't so, or at a fault; 2 where the words are refused; 3\n\
where --strict or --stop-at-error stopped it.\n\n\
Example: tmhost eval --timeout 10 sheet 3 7";

const SHOW_ABOUT: &str = "Write a worksheet";

const SHOW_NOTES: &str =
    "It writes and makes no file. A field without an output shows `?`. Where a program\n\
runs the worksheet nothing is shown: that is the fault 35 InUse. With --json it\n\
writes what `export json` does.\n\n\
With --at N it writes the worksheet after the first N of its changes, which\n\
`history` lists. It reads no further, so a damage after them is no fault.\n\n\
Status: 0 where all was written; 1 at a fault; 2 where the words are refused.\n\n\
Example: tmhost show sheet";

const CHECK_ABOUT: &str = "Evaluate a worksheet again, and write what differs";

const CHECK_NOTES: &str =
    "Each field that shows an answer is evaluated again, with interpreters of its own, on\n\
a copy in memory; the worksheet stays as it is. In the worksheet's order, where\n\
another output comes, the field's line, its prompt and input, and a hunk of a diff\n\
are written: with `- ` what it shows, with `+ ` what came, three lines around them;\n\
where no answer came, all that it shows, and `+ ?` with the reason, if there is one.\n\
With --whole, in words alone and without --accept, both outputs are written whole.\n\
Prompts aren't compared. The last line has the counts, as\n\
`same 4 differ 1 unanswered 0`.\n\n\
With --all fields that show no answer are evaluated too, in their places. An answer\n\
to one of them is new: it is written with `+ `, and counted as `new 2` at the end.\n\n\
With --format it reports each field as a test: as a point of TAP 13, or as a case\n\
in JUnit's XML. With --json, which is --format json, each is one object, which\n\
programs read (docs/use/JSON.md). Where fields go one after another, as with --jobs 1,\n\
these say what each took. --only names the one session whose fields are\n\
evaluated. The outputs of the fields that --leave-out names aren't compared, as of\n\
3, 7, 8 and 9 by --leave-out 3,7-9, and with --compare 3,7-9 theirs alone are; all\n\
are evaluated all the same, and counted as left out. Where no field has one of these\n\
numbers (of a range its first or its last) nothing is evaluated: that is the fault\n\
37 NoField.\n\n\
With --timeout SECONDS (1 to 1,000,000) the interpreter of a field that takes\n\
longer is sent SIGINT, and is stopped where it hasn't answered two seconds later.\n\
No answer came then, whatever came after SIGINT, and the next field is checked.\n\
Without it a field that computes without an end holds the check back for ever.\n\n\
With --accept each answer that differs or is new is put into its field of the worksheet,\n\
which is opened to write. Then its difference is written, with `accepted ID` below,\n\
and the last line is as `same 4 accepted 1 unanswered 0`. It goes with no format\n\
but text.\n\n\
Fields of up to 64 sessions wait at a time, of each session one, as with `eval`, and\n\
nothing is written until the last answer came. With --accept, with --timeout, and\n\
where all are of one session, one goes after another in the worksheet's order, and\n\
what differs is written at once. With --jobs N (1 to 64) fields of up to N sessions\n\
wait at a time, and with --timeout the time of those begins when the last of them\n\
was asked, and again at each banner or answer of one. The report is the same. It\n\
goes with no --accept.\n\n\
With several PATHs each is checked as it would be alone, one after another, under\n\
a line `worksheet PATH`; at a fault of one the next is checked all the same. The\n\
last line is their total, as `total of 3 worksheets: same 9 differ 1 unanswered 0`,\n\
with `faults 1` at its end where one had a fault. They go with no format but text,\n\
with no --accept, --leave-out or --compare.\n\n\
Status: 0 where all outputs that are compared are the same, new, or were accepted; 1\n\
where one differs or didn't come, where the session that --only names has no field\n\
that is checked (with several PATHs: in one of them), or at a fault; 2 where the\n\
words are refused.\n\n\
Example: tmhost check --format junit sheet >report.xml";

const RESCUE_ABOUT: &str = "Write what stands before a damage to a new worksheet";

const RESCUE_NOTES: &str =
    "It reads PATH alone, and makes NEW as `create` does. NEW has the worksheet of the\n\
changes that stand in PATH before the first damage, whether that is a broken gate\n\
or a change that can't be read or isn't allowed there; nothing after it is read.\n\
(`show` reports a broken gate first, also where it is after such a change.)\n\
It writes `kept N, damaged at OFFSET`, where N counts the changes that were kept,\n\
or `kept N, whole`.\n\n\
Where PATH is no worksheet (31), can't be read (32), or is run by another program\n\
(35), NEW isn't made. Where NEW or NEW.alt exists, the fault is 34 NotEmpty. A\n\
rescue that was cut off may leave NEW empty, or no worksheet: remove NEW and\n\
NEW.alt, and give it again.\n\n\
Status: 0 where NEW is on the disk and that was printed, be PATH whole or not; 1\n\
at a fault; 2 where the words are refused.\n\n\
Example: tmhost rescue sheet new";

const EXPORT_ABOUT: &str = "Write a worksheet as a script, Markdown, a page, a notebook or JSON";

const EXPORT_NOTES: &str = "FORMAT is one of these:\n\
script    the lines that make the worksheet again, for `run` on an empty one: its\n\
\x20         sessions, and a `new` for each field. Answers are no part of it. A\n\
\x20         session with a space in a word has no such line: that is the fault\n\
\x20         36 NoScript, and nothing is written\n\
markdown  each input and each output as a block of code; an output that is one\n\
\x20         formula between dollars as that formula\n\
html      one page that stands alone, without scripts: prompts, inputs and outputs,\n\
\x20         all of them as texts\n\
notebook  a notebook of Jupyter: each field as a cell of code, with its output as\n\
\x20         text, and beside it as the formula where it is one\n\
json      lines of JSON, which programs read (docs/use/JSON.md): a line for each field,\n\
\x20         with its output as a tree of blocks\n\n\
It reads PATH as `show` does, with --at N too, and writes and makes no file.\n\n\
Status: 0 where all was written; 1 at a fault; 2 where the words are refused.\n\n\
Example: tmhost export html sheet >sheet.html";

const HISTORY_ABOUT: &str = "List the changes that stand in a worksheet's file";

const HISTORY_NOTES: &str =
    "A line is the number of a change, from 1, and what it was: `session NAME`, `new ID\n\
NAME`, `set ID`, `remove ID`, `move ID AFTER`, `eval ID`, `answered ID`, `lost ID\n\
REASON` or `ids N`, after which the next new field has the number N.\n\
`show --at N`, `export --at N` and `restore` take the worksheet after the first N.\n\n\
A `checkpoint` ends the past: it writes the worksheet again, as changes that make\n\
it again, and those before it are gone. They come first then: the sessions, and\n\
each field by its number, with its answer.\n\n\
It reads PATH as `show` does, and writes and makes no file. Where PATH is damaged,\n\
the changes before the damage are listed, and the fault is 30 Damaged.\n\n\
Status: 0 where all were listed; 1 at a fault; 2 where the words are refused.\n\n\
Example: tmhost history sheet";

const RESTORE_ABOUT: &str = "Write a worksheet as it was to a new worksheet";

const RESTORE_NOTES: &str =
    "NEW has the worksheet that PATH was after the first N of its changes, with the\n\
answers that it had then; `history` has their numbers. It reads PATH alone, and\n\
makes NEW as `rescue` does: the worksheet is written again, and its past begins\n\
there. It writes `kept N, whole`.\n\n\
Where PATH has fewer changes (39), is damaged before that (30), is no worksheet\n\
(31), can't be read (32), or is run by another program (35), NEW isn't made. Where\n\
NEW or NEW.alt exists, the fault is 34 NotEmpty.\n\n\
Status: 0 where NEW is on the disk and that was printed; 1 at a fault; 2 where the\n\
words are refused.\n\n\
Example: tmhost restore sheet 12 sheet.before";

const FAULTS_ABOUT: &str = "What each fault means";

const FAULTS_NOTES: &str =
    "A fault is printed on standard error as `fault N NAME`, with status 1.\n\n\
21 Disk          a write failed while the script ran; all that was printed is kept:\n\
\x20                make room, then `show`\n\
22 OutOfMemory   while the script ran; all that was printed is kept: run the rest again\n\
23 JournalFull   an answer doesn't fit the file; it isn't kept: `checkpoint`, or a new\n\
\x20                worksheet. Of `rescue`: the worksheet doesn't fit a new file\n\
30 Damaged G     no whole change stands at offset G of the file; what stands before it\n\
\x20                is whole: leave the file as it is, and `rescue` it\n\
31 NotASheet     no worksheet of this version; nothing was written: look at the path.\n\
\x20                What a `create` leaves that was cut off: remove PATH and PATH.alt\n\
32 Disk          a file can't be opened, made, read or synced, or has a second name;\n\
\x20                nothing was written to a worksheet: look at the path, make room\n\
33 OutOfMemory   while the worksheet was opened; nothing was written: run it again. Of\n\
\x20                `rescue`: remove NEW and NEW.alt first, where they were made\n\
34 NotEmpty      PATH or PATH.alt is there already; nothing was changed: another path\n\
35 InUse         another program has the worksheet; nothing was done: wait for its end\n\
36 NoScript      a session has a word with a space, which no line of a script makes;\n\
\x20                nothing was written: export it in another format\n\
37 NoField ID    no field has this number, which was given to `eval` or `check`;\n\
\x20                nothing was evaluated: `show` has the numbers\n\
38 SecondFile    PATH is the second file of a worksheet; nothing was done: give PATH\n\
\x20                without .alt\n\
39 NoChange N    the worksheet has fewer changes than N; nothing was written: `history`\n\
\x20                has the numbers\n\
40 Input         standard input can't be read, or interpreters not watched; all\n\
\x20                that was printed is kept: give the rest again\n\
41 InputTooLong  more than 67,108,864 bytes; nothing was done: cut it into parts\n\
42 Output        standard output can't be written; what was done is on the disk, and\n\
\x20                one line or group more than was printed may be: `show` says\n\
\x20                where it stands\n\
43 OutOfMemory   outside of the worksheet; all that was printed is kept: run the rest\n\
\x20                again\n\
44 NoProgram     the program of the session that is named isn't there; nothing was\n\
\x20                evaluated: install it, or put its folder into PATH\n\n\
docs/use/FAULTS.md has more of each.";

/// A row.
fn listed(name: &'static str, shape: Shape, about: &'static str, notes: &'static str) -> Row
    ensures name { result.name.now ≡ name.entry.now }
    ensures shape { result.shape ≡ shape }
{
    Row {
        name,
        shape,
        about,
        notes,
    }
}

/// The row with this number, in the order of the help.
pub(crate) fn row_at(at: usize) -> Row
    requires { at < 12 }
    ensures { IsRow at result }
{
    match at {
        0 => listed("blocks", Shape::Stream, BLOCKS_ABOUT, BLOCKS_NOTES),
        1 => listed("create", Shape::Path, CREATE_ABOUT, CREATE_NOTES),
        2 => listed("run", Shape::Run, RUN_ABOUT, RUN_NOTES),
        3 => listed("live", Shape::Live, LIVE_ABOUT, LIVE_NOTES),
        4 => listed("eval", Shape::Eval, EVAL_ABOUT, EVAL_NOTES),
        5 => listed("show", Shape::Show, SHOW_ABOUT, SHOW_NOTES),
        6 => listed("check", Shape::Check, CHECK_ABOUT, CHECK_NOTES),
        7 => listed("rescue", Shape::Paths, RESCUE_ABOUT, RESCUE_NOTES),
        8 => listed("export", Shape::Format, EXPORT_ABOUT, EXPORT_NOTES),
        9 => listed("history", Shape::Path, HISTORY_ABOUT, HISTORY_NOTES),
        10 => listed("restore", Shape::Earlier, RESTORE_ABOUT, RESTORE_NOTES),
        11 => listed("faults", Shape::Help, FAULTS_ABOUT, FAULTS_NOTES),
        _ => unreachable!(),
    }
}
