//! Pages that go out to a sink.
ghost use Rattle.std.specs.Prelude.{◌≡◌, ◌+◌, ◌-◌, ◌^◌, ◌<◌, [], ◌++◌, length, flat_map};
ghost use Rattle.std.specs.List.{concat};
ghost use Rattle.cm_html.specs.steps.Pages.{Adds, WritesMore};

use crate::outgoing::Outgoing;
use crate::page::Page;
use crate::phrases::Phrases;
use cm_text::{Sink, WriteFailed};

/// Adds a page.
fn add_page<K: Phrases, W: Sink>(
    out: &mut Outgoing,
    sink: &mut W,
    page: &Page,
) -> Result<(), WriteFailed>
    requires failed { (W.seen sink.old).failed < 2 ^ 64 - 1 }
    requires counted { out.old.written
        + length (out.old.waiting.items ++ flat_map K.written page.now) < 2 ^ 64 }
    ensures { Adds result out.old out.new (flat_map K.written page.now) (W.seen sink.old) (W.seen sink.new) }
{
    let text = page.text.as_bytes();
    let mut from: usize = 0;
    let insertions = page.insertions.as_slice();
    for insertion in insertions {
        let end = insertion.place;
        let inserted = insertion.text.as_str().as_bytes();
        match out.add_texts::<K, W>(sink, &text[from..end], inserted) {
            Ok(()) => from = end,
            Err(failed) => return Err(failed),
        }
    }
    out.add_text::<K, W>(sink, &text[from..])
}

/// Adds pages one after another.
fn add_full<K: Phrases, W: Sink>(
    out: &mut Outgoing,
    sink: &mut W,
    pages: &[Page],
) -> Result<(), WriteFailed>
    requires failed { (W.seen sink.old).failed < 2 ^ 64 - 1 }
    requires counted { out.old.written
        + length (out.old.waiting.items ++ flat_map K.written (concat pages.now)) < 2 ^ 64 }
    ensures { Adds result out.old out.new (flat_map K.written (concat pages.now))
        (W.seen sink.old) (W.seen sink.new) }
{
    for page in pages {
        match add_page::<K, W>(out, sink, page) {
            Ok(()) => {}
            Err(failed) => return Err(failed),
        }
    }
    Ok(())
}

/// Adds the full pages, followed by the last one.
fn add_all<K: Phrases, W: Sink>(
    out: &mut Outgoing,
    sink: &mut W,
    full: &[Page],
    last: &Page,
) -> Result<(), WriteFailed>
    requires failed { (W.seen sink.old).failed < 2 ^ 64 - 1 }
    requires counted { out.old.written
        + length (out.old.waiting.items ++ flat_map K.written (concat full.now ++ last.now)) < 2 ^ 64 }
    ensures { Adds result out.old out.new (flat_map K.written (concat full.now ++ last.now))
        (W.seen sink.old) (W.seen sink.new) }
{
    add_full::<K, W>(out, sink, full)?;
    add_page::<K, W>(out, sink, last)
}

/// Writes the full pages, followed by the last one, with each phrase in the place of the byte that is held
/// for it. Returns how many bytes were written.
pub(crate) fn write_pages<K: Phrases, W: Sink>(
    out: &mut Outgoing,
    sink: &mut W,
    full: &[Page],
    last: &Page,
) -> Result<usize, WriteFailed>
    requires waiting { out.old.waiting.items ≡ [] }
    requires written { out.old.written ≡ 0 }
    requires failed { (W.seen sink.old).failed < 2 ^ 64 - 1 }
    requires counted { length (flat_map K.written (concat full.now ++ last.now)) < 2 ^ 64 }
    ensures { WritesMore result 0 (flat_map K.written (concat full.now ++ last.now))
        (W.seen sink.old) (W.seen sink.new) }
{
    match add_all::<K, W>(out, sink, full, last) {
        Ok(()) => out.finish(sink),
        Err(failed) => Err(failed),
    }
}
