//! The report on a file of examples, from a source of its bytes to the text that is written.
ghost use Rattle.std.specs.Prelude.{◌≡◌, ℕ, ◌-◌, ◌^◌, ◌<◌, ◌++◌, List, IfOk, OnOk, string_bytes};
ghost use Rattle.std.specs.Io.KnownBytes.{Consumes};
ghost use Rattle.cm_tool.specs.ExampleFiles.{difference_of, report_view};
ghost use Rattle.cm_tool.specs.Reporting.{difference_text, report_text, WritesReport};

use crate::example_files::comparing::{Difference, Report, examples_by};
use crate::fault::Fault;
use crate::reading::read_text;
use cm_text::{Limits, Sink, Source, write_all};
use std::alloc::{AllocError, Global};
use std::fmt::Write;

/// Appends the text that is written for an example that differs.
fn push_difference_text(out: &mut String, difference: &Difference) -> Result<(), AllocError>
    ensures { OnOk result (string_bytes out.new
        ≡ string_bytes out.old ++ difference_text (difference_of difference.now)) }
{
    let Difference {
        number,
        expected,
        got,
    } = difference;
    write!(out, "example {number}\nexpected:\n{expected}got:\n{got}")
}

/// The text that is written for a report.
fn report_text(alloc: Global, report: &Report) -> Result<String, AllocError>
    ensures { IfOk result (λ text. string_bytes text ≡ report_text (report_view report.now)) }
{
    let mut out = String::new(alloc);
    for difference in &report.differ {
        push_difference_text(&mut out, difference)?;
    }
    write!(out, "{} of {} agree\n", report.agree, report.total)?;
    Ok(out)
}

/// Writes the report on the source's examples, read with the rules of the limits. Returns the number of
/// examples, or the first that differs.
///
/// Nothing is written before the report is complete. A fault that the bytes settle ends the reading: no read
/// is made after it. On `Fault::WriteFailed` the first `written` bytes of the report were written, and if
/// there is no report, nothing.
pub(crate) fn report<R: Source, W: Sink>(
    alloc: Global,
    source: &mut R,
    sink: &mut W,
    limits: Limits,
) -> Result<usize, Fault>
    requires reads { (R.seen source.old).failed < 2 ^ 64 - 1 }
    requires writes { (W.seen sink.old).failed < 2 ^ 64 - 1 }
    ensures { (bytes : List ℕ) × Consumes (R.seen source.old).remaining (R.seen source.new).remaining bytes
        × WritesReport result limits bytes (R.seen source.old) (R.seen source.new)
        (W.seen sink.old) (W.seen sink.new) }
{
    let text = read_text(alloc, source, limits)?;
    let report = examples_by(alloc, limits.rules(), &text)?;
    let output = report_text(alloc, &report)?;
    write_all(sink, output.as_bytes())?;
    report.verdict()
}
