//! The fixed parts of a page, and bytes as they are.
ghost use Rattle.std.specs.Prelude.{OnOk};
ghost use Rattle.std.specs.Io.KnownBytes.{Appends};

use sheet_text::WriteFault;
use std::io::Write;

/// Writes bytes as they are.
pub(crate) fn write_bytes<W: Write>(bytes: &[u8], out: &mut W) -> Result<(), WriteFault>
    ensures { OnOk result (Appends (W.contents out.old) (W.contents out.new) bytes.now) }
{
    out.write_all(bytes).map_err(|_| WriteFault)
}

/// What is the same before the title of each page.
pub(crate) const META: &[u8] = b"<!doctype html>\n\
    <html lang=\"en\">\n\
    <head>\n\
    <meta charset=\"utf-8\">\n\
    <meta name=\"viewport\" content=\"width=device-width, initial-scale=1\">\n\
    <meta name=\"color-scheme\" content=\"light dark\">\n\
    <meta http-equiv=\"Content-Security-Policy\" content=\"default-src 'none'; style-src 'unsafe-inline'; img-src data:\">\n\
    <title>";

/// What comes after the title.
pub(crate) const TITLE_END: &[u8] = b"</title>\n<style>\n";

/// What comes after the style.
pub(crate) const STYLE_END: &[u8] = b"</style>\n</head>\n<body>\n<h1 dir=\"ltr\">";

/// What comes after the heading.
pub(crate) const HEADING_END: &[u8] = b"</h1>\n<main>\n";

/// What comes after the last field.
pub(crate) const PAGE_END: &[u8] = b"</main>\n</body>\n</html>\n";

/// What comes before a field's number in its anchor.
pub(crate) const FIELD_START: &[u8] = b"<section id=\"field-";

/// What stands between the anchor and the link to it.
pub(crate) const ANCHOR_END: &[u8] = b"\">\n<header><a href=\"#field-";

/// What comes after the link's number.
pub(crate) const LINK_END: &[u8] = b"\">#";

/// What comes after the number that is shown.
pub(crate) const NUMBER_END: &[u8] = b"</a> <bdi>";

/// What comes after the session.
pub(crate) const SESSION_END: &[u8] = b"</bdi></header>\n";

/// What comes before the prompt.
pub(crate) const INPUT_START: &[u8] = b"<pre class=\"in\" dir=\"ltr\"><bdi>";

/// What comes after the prompt.
pub(crate) const PROMPT_END: &[u8] = b"</bdi><code dir=\"ltr\">";

/// What comes after the input.
pub(crate) const INPUT_END: &[u8] = b"</code></pre>\n";

/// A field without an answer.
pub(crate) const NO_ANSWER: &[u8] = b"<p class=\"none\">no answer</p>\n";

/// What comes before the reason why a field lost its line.
pub(crate) const LOST_START: &[u8] = b"<p class=\"none\">no answer: ";

/// What comes after that reason.
pub(crate) const LOST_END: &[u8] = b"</p>\n";

/// What comes before an output; HTML drops the line feed after `<pre>`, and so none of the output's.
pub(crate) const OUTPUT_START: &[u8] = b"<pre class=\"out\" dir=\"ltr\">\n";

/// What comes after an output.
pub(crate) const OUTPUT_END: &[u8] = b"</pre>\n";

/// What comes before a formula.
pub(crate) const TEX_START: &[u8] = b"<span class=\"tex\">";

/// What comes after a formula.
pub(crate) const TEX_END: &[u8] = b"</span>";

/// What comes before an error.
pub(crate) const ERROR_START: &[u8] = b"<span class=\"error\">";

/// What comes after an error.
pub(crate) const ERROR_END: &[u8] = b"</span>";

/// What comes before the base64 of a PNG.
pub(crate) const PNG_START: &[u8] = b"<img alt=\"A picture (PNG)\" src=\"data:image/png;base64,";

/// What comes before that of a JPEG.
pub(crate) const JPEG_START: &[u8] = b"<img alt=\"A picture (JPEG)\" src=\"data:image/jpeg;base64,";

/// What comes before that of an SVG.
pub(crate) const SVG_START: &[u8] =
    b"<img alt=\"A picture (SVG)\" src=\"data:image/svg+xml;base64,";

/// What comes after the base64 of a picture.
pub(crate) const IMAGE_END: &[u8] = b"\">";

/// What comes after a field.
pub(crate) const FIELD_END: &[u8] = b"</section>\n";
