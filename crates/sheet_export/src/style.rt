//! The style of a page.

/// A style sheet for light and dark, wide and narrow, screen and paper.
pub(crate) const STYLE: &[u8] =
    b":root{color-scheme:light dark;--ink:#1c2733;--dim:#66727f;--page:#f6f7f9;--card:#fff;--line:#dfe4ea;--mark:#0b62c4;--warn:#a15c00;--error:#b3261e}\n\
    @media (prefers-color-scheme:dark){:root{--ink:#dce3ea;--dim:#93a0ad;--page:#11161c;--card:#19212a;--line:#2c3844;--mark:#6db3ff;--warn:#e5b567;--error:#ff8a80}}\n\
    *{box-sizing:border-box}\n\
    body{margin:0 auto;padding:2rem 1rem 4rem;max-width:52rem;background:var(--page);color:var(--ink);font:16px/1.5 system-ui,sans-serif}\n\
    h1{margin:0 0 1.5rem;font-size:1.6rem;font-weight:650;overflow-wrap:anywhere}\n\
    section{margin:0 0 1rem;border:1px solid var(--line);border-radius:.6rem;background:var(--card);overflow:hidden}\n\
    section:target{border-color:var(--mark);box-shadow:0 0 0 1px var(--mark)}\n\
    header{display:flex;gap:.6rem;padding:.35rem .9rem;border-bottom:1px solid var(--line);color:var(--dim);font-size:.8rem}\n\
    header a{color:var(--mark);text-decoration:none}\n\
    pre{margin:0;padding:.6rem .9rem;font:.9rem/1.5 ui-monospace,Consolas,monospace;white-space:pre-wrap;overflow-wrap:anywhere;tab-size:4}\n\
    .in bdi{color:var(--dim);user-select:none}\n\
    .in code{font:inherit;font-weight:600}\n\
    .out{border-top:1px dashed var(--line);overflow-x:auto}\n\
    .out img{display:block;max-width:100%;height:auto;margin:.4rem 0;background:#fff}\n\
    .error{color:var(--error);border-left:.2rem solid var(--error);padding-left:.5rem}\n\
    .none{margin:0;padding:.6rem .9rem;border-top:1px dashed var(--line);color:var(--warn);font-size:.85rem;font-style:italic}\n\
    @media print{:root{--ink:#000;--dim:#444;--page:#fff;--card:#fff;--line:#999;--mark:#000;--warn:#000;--error:#000}body{max-width:none;padding:0}section{break-inside:avoid}}\n";
