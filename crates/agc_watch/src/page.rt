//! A page: the workbench, with a document as data in it.
ghost use Rattle.std.specs.Prelude.{◌≡◌, ◌++◌, ℕ, List, IfOk, IfSome, IfNone};
ghost use Rattle.agc_text.specs.Writing.{Writes};
ghost use Rattle.agc_watch.specs.Data.{spelled, data_of};
ghost use Rattle.agc_watch.specs.Pages.{IsWorkbench, WritesPage, closing_of};

use agc_session::RunFault;
use agc_text::{Output, put};
use std::alloc::{AllocError, Global};
use std::io::Write;

/// The workbench's text right before its document's data, and right after them.
const OPENING: &[u8] = b"<script type=\"text/plain\" id=\"document\">\n";

const CLOSING: &[u8] = b"</script>\n</body>\n</html>\n";

/// The text right after the data, in a page that opens on the chart alone.
const CHART_CLOSING: &[u8] =
    b"</script>\n<script type=\"text/plain\" id=\"view\">chart</script>\n</body>\n</html>\n";

/// The view in which a page opens.
#[derive(Clone, Copy)]
pub(crate) enum PageView {
    Whole,
    /// The chart alone, for printing.
    Chart,
}

impl PageView {
    /// The text right after the document's data.
    fn closing(self) -> &'static [u8]
        ensures { result.now ≡ closing_of self }
    {
        match self {
            PageView::Whole => CLOSING,
            PageView::Chart => CHART_CLOSING,
        }
    }
}

/// A document that a page is made of, and the view in which the page opens.
#[derive(Clone, Copy)]
pub(crate) struct PageDocument<'a> {
    pub(crate) text: &'a str,
    pub(crate) view: PageView,
}

/// A byte of a document as data.
fn add_spelled(told: &mut Vec<u8>, byte: u8) -> Result<(), AllocError>
    ensures { IfOk result (λ _. told.new.items ≡ told.old.items ++ spelled byte) }
{
    match byte {
        b'<' => told.extend_from_slice(b"\\l"),
        b'\\' => told.extend_from_slice(b"\\\\"),
        other => told.extend_from_slice(&[other]),
    }
}

/// The data of a document, which contain no markup.
fn data_of(alloc: Global, text: &str) -> Result<Vec<u8>, AllocError>
    ensures { IfOk result (λ v. v.items ≡ data_of text.now) }
{
    let mut spelled: Vec<u8> = Vec::new(alloc);
    for byte in text.as_bytes() {
        add_spelled(&mut spelled, *byte)?;
    }
    Ok(spelled)
}

/// A workbench up to the place of its document's data. None for a text that is no workbench, or
/// that has a document already.
fn front_of(workbench: &[u8]) -> Option<&[u8]>
    ensures found { IfSome result (λ front. IsWorkbench workbench.now front.now) }
    ensures none { IfNone result ((front : List ℕ) → IsWorkbench workbench.now front → ⊥) }
{
    let front = workbench.strip_suffix(CLOSING)?;
    let _before = front.strip_suffix(OPENING)?;
    Some(front)
}

/// Writes three texts, one after the other.
fn put_three<W: Write>(front: &[u8], inner: &[u8], end: &[u8], writer: &mut W) -> Result<(), Output>
    ensures { Writes (W.contents writer.old) (W.contents writer.new)
        (front.now ++ (inner.now ++ end.now)) result }
{
    put(writer, front)?;
    put(writer, inner)?;
    put(writer, end)
}

/// Writes the page of a document, a bench or a scenario: a workbench with the document in it. A
/// browser asks there for the document's requests and steps through them. The document is taken as
/// it is. The writer is not flushed. False, and nothing is written, where the workbench is none.
///
/// # Errors
///
/// `NoMemory`, and nothing was written. `Output` if a write failed, or took nothing of what was
/// left.
pub(crate) fn put_page<W: Write>(
    alloc: Global,
    workbench: &[u8],
    document: PageDocument<'_>,
    writer: &mut W,
) -> Result<bool, RunFault>
    ensures { WritesPage document.entry.view (W.contents writer.old) (W.contents writer.new)
        workbench.now document.entry.text.now result }
{
    let inner = data_of(alloc, document.text)?;
    match front_of(workbench) {
        Some(front) => match put_three(front, inner.as_slice(), document.view.closing(), writer) {
            Ok(()) => Ok(true),
            Err(_failed) => Err(RunFault::Output),
        },
        None => Ok(false),
    }
}
