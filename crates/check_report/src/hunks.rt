//! How one text became another, as one hunk of a unified diff.
ghost use Rattle.std.specs.Prelude.{◌≡◌, ◌<◌, ◌++◌, IfOk, IfSome, OnOk, [], drop, get_or, length, map, reverse, take};
ghost use Rattle.std.specs.Io.KnownBytes.{Appends};
ghost use Rattle.std.specs.List.{common_prefix_len, flat_map};
ghost use Rattle.std.specs.Str.{bytes_eq};
ghost use Rattle.bstr.specs.Text.{lines_of};
ghost use Rattle.check_report.specs.Hunks as hunks;

use crate::writing::write_bytes;
use bstr::{ByteSlice, LinesWithTerminator};
use sheet_text::WriteFault;
use std::alloc::{AllocError, Global};
use std::io::Write;

/// How many lines two texts begin with alike, how many of the others they end with alike, and how many each has.
#[derive(Clone, Copy, Debug, PartialEq, Eq)]
pub(crate) struct Hunk {
    /// Lines with which both begin.
    pub(crate) front: usize,
    /// Lines with which both end, of those after these.
    pub(crate) back: usize,
    /// All lines of the old text.
    pub(crate) old: usize,
    /// All lines of the new one.
    pub(crate) new: usize,
}

/// The most lines that are shown on either side of what differs.
const CONTEXT: usize = 3;

impl Hunk {
    /// How many lines stand before the hunk.
    fn hidden(self) -> usize
        ensures { result ≡ hunks.hidden self }
    {
        self.front.saturating_sub(CONTEXT)
    }

    /// How many lines are shown before what differs.
    fn before(self) -> usize
        ensures { result ≡ hunks.before self }
    {
        self.front - self.hidden()
    }

    /// How many are shown after it.
    fn after(self) -> usize
        ensures { result ≡ hunks.after self }
    {
        self.back.min(CONTEXT)
    }

    /// How many lines of the old text aren't in the new one.
    fn removed(self) -> usize
        ensures { result ≡ hunks.lines_removed self }
    {
        self.old
            .saturating_sub(self.back)
            .saturating_sub(self.front)
    }

    /// How many of the new one aren't in the old one.
    fn added(self) -> usize
        ensures { result ≡ hunks.lines_added self }
    {
        self.new
            .saturating_sub(self.back)
            .saturating_sub(self.front)
    }

    /// Where the lines begin with which both end.
    fn following(self) -> usize
        ensures { result ≡ hunks.tail_start self }
    {
        self.old.saturating_sub(self.back)
    }

    /// How many lines the hunk has of a text of which so many lines are its own.
    fn count(self, own: usize) -> u128
        ensures { result ≡ hunks.hunk_length self own }
    {
        self.before() as u128 + own as u128 + self.after() as u128
    }

    /// The number of the first of so many lines, and that of the line before them where they are none.
    fn first(self, count: u128) -> u128
        ensures { result ≡ hunks.first_line self count }
    {
        let hidden = self.hidden() as u128;
        if count == 0 { hidden } else { hidden + 1 }
    }

    /// Whether lines are left out before it or after it.
    fn is_cut(self) -> bool
        ensures { result ≡ hunks.is_cut self }
    {
        self.front > CONTEXT || self.back > CONTEXT
    }
}

/// The lines of a text, each with its end.
fn lines_in<'a>(alloc: Global, text: &'a [u8]) -> Result<Vec<&'a [u8]>, AllocError>
    ensures { IfOk result (λ lines. map (λ line. line.now) lines.items ≡ lines_of text.now) }
{
    let mut all = Vec::new(alloc);
    let mut lines = text.lines_with_terminator();
    while let Some(line) = lines.next() {
        all.push(line)?;
    }
    Ok(all)
}

/// Whether two lists of lines have the same one at a place.
fn is_same_at(old: &[&[u8]], new: &[&[u8]], at: usize) -> bool
    requires old { at < length old.now }
    requires new { at < length new.now }
    ensures { result ≡ bytes_eq (get_or (map (λ line. line.now) old.now) at [])
        (get_or (map (λ line. line.now) new.now) at []) }
{
    old[at] == new[at]
}

/// How many lines two lists of them begin with alike.
fn count_common(old: &[&[u8]], new: &[&[u8]]) -> usize
    ensures { result ≡ common_prefix_len bytes_eq (map (λ line. line.now) old.now)
        (map (λ line. line.now) new.now) }
{
    let most = old.len().min(new.len());
    for at in 0..most {
        if !is_same_at(old, new, at) {
            return at;
        }
    }
    most
}

/// Lines from the last to the first.
fn turned<'a>(lines: Vec<&'a [u8]>) -> Vec<&'a [u8]>
    ensures { map (λ line. line.now) result.items
        ≡ reverse (map (λ line. line.now) lines.entry.items) }
{
    let mut lines = lines;
    lines.reverse();
    lines
}

/// How one text became another. None where there is no memory for their lines.
pub(crate) fn find_hunk(alloc: Global, old: &[u8], new: &[u8]) -> Option<Hunk>
    ensures { IfSome result (λ hunk. hunk ≡ hunks.hunk_of (lines_of old.now) (lines_of new.now)) }
{
    let Ok(olds) = lines_in(alloc, old) else {
        return None;
    };
    let Ok(news) = lines_in(alloc, new) else {
        return None;
    };
    Some(hunk_between(olds, news))
}

/// How lines became others.
fn hunk_between<'a>(olds: Vec<&'a [u8]>, news: Vec<&'a [u8]>) -> Hunk
    ensures { result ≡ hunks.hunk_of (map (λ line. line.now) olds.entry.items)
        (map (λ line. line.now) news.entry.items) }
{
    let old = olds.len();
    let new = news.len();
    let front = count_common(olds.as_slice(), news.as_slice());
    let back = count_common(turned(olds).as_slice(), turned(news).as_slice());
    Hunk {
        front,
        back: back.min(old.min(new).saturating_sub(front)),
        old,
        new,
    }
}

/// Passes over so many lines.
#[tactic(auto, using(crate::proofs::Runs::pass_steps))]
fn pass_over(count: usize, lines: &mut LinesWithTerminator<'_>)
    ensures { lines.new ≡ drop count lines.old }
{
    let mut left = count;
    while left > 0 {
        if lines.next().is_none() {
            return;
        }
        left -= 1;
    }
}

/// Writes so many of these lines, each with a mark in front.
#[tactic(auto, using(crate::proofs::Runs::run_steps))]
fn write_next<W: Write>(
    mark: &[u8],
    count: usize,
    lines: LinesWithTerminator<'_>,
    writer: &mut W,
) -> Result<(), WriteFault>
    ensures { OnOk result (Appends (W.contents writer.old) (W.contents writer.new)
        (flat_map (λ line. mark.now ++ line) (take count lines.entry))) }
{
    let mut lines = lines;
    let mut left = count;
    while left > 0 {
        let Some(line) = lines.next() else {
            return Ok(());
        };
        writer.write_all(mark).map_err(|_| WriteFault)?;
        writer.write_all(line).map_err(|_| WriteFault)?;
        left -= 1;
    }
    Ok(())
}

/// Writes so many lines of a text from one on, each with a mark in front.
fn write_part<W: Write>(
    mark: &[u8],
    from: usize,
    count: usize,
    text: &[u8],
    writer: &mut W,
) -> Result<(), WriteFault>
    ensures { OnOk result (Appends (W.contents writer.old) (W.contents writer.new)
        (hunks.marked_part mark.now from count text.now)) }
{
    let mut lines = text.lines_with_terminator();
    pass_over(from, &mut lines);
    write_next(mark, count, lines, writer)
}

/// Writes where so many lines stand.
fn write_range<W: Write>(hunk: Hunk, count: u128, writer: &mut W) -> Result<(), WriteFault>
    ensures { OnOk result (Appends (W.contents writer.old) (W.contents writer.new)
        (hunks.range_text hunk count)) }
{
    let first = hunk.first(count);
    write!(writer, "{first},{count}").map_err(|_| WriteFault)
}

/// Writes where a hunk stands.
#[tactic(auto, using(crate::proofs::Written::steps))]
fn write_place<W: Write>(hunk: Hunk, writer: &mut W) -> Result<(), WriteFault>
    ensures { OnOk result (Appends (W.contents writer.old) (W.contents writer.new)
        (hunks.place_text hunk)) }
{
    write_bytes(b"@@ -", writer)?;
    write_range(hunk, hunk.count(hunk.removed()), writer)?;
    write_bytes(b" +", writer)?;
    write_range(hunk, hunk.count(hunk.added()), writer)?;
    write_bytes(b" @@\n", writer)?;
    Ok(())
}

/// The same where lines are left out.
fn write_head<W: Write>(hunk: Hunk, writer: &mut W) -> Result<(), WriteFault>
    ensures { OnOk result (Appends (W.contents writer.old) (W.contents writer.new)
        (hunks.head_text hunk)) }
{
    if hunk.is_cut() {
        write_place(hunk, writer)
    } else {
        Ok(())
    }
}

/// Writes a hunk by the two texts.
#[tactic(auto, using(crate::proofs::Written::steps))]
pub(crate) fn write_hunk<W: Write>(
    hunk: Hunk,
    old: &[u8],
    new: &[u8],
    writer: &mut W,
) -> Result<(), WriteFault>
    ensures { OnOk result (Appends (W.contents writer.old) (W.contents writer.new)
        (hunks.hunk_text hunk old.now new.now)) }
{
    write_head(hunk, writer)?;
    write_part(b"  ", hunk.hidden(), hunk.before(), old, writer)?;
    write_part(b"- ", hunk.front, hunk.removed(), old, writer)?;
    write_part(b"+ ", hunk.front, hunk.added(), new, writer)?;
    write_part(b"  ", hunk.following(), hunk.after(), old, writer)?;
    Ok(())
}
