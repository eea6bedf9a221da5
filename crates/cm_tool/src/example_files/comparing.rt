//! Files of examples, in the form of the CommonMark specification.
ghost use Rattle.std.specs.Prelude.{◌≡◌, [], ◌∷◌, ◌++◌, IfOk, IfErr, OnOk, None, map, string_bytes};
ghost use Rattle.cm_text.specs.Rules.{profile};
ghost use Rattle.cm_tool.specs.ExampleFiles.{difference_of, Examines, report_view, verdict_of};
ghost use Rattle.cm_tool.specs.Faults.{fault_of};
ghost use Rattle.cm_tool.specs.Parsing.{TellsFault};
ghost use Rattle.cm_tool.specs.Writing.{converted};

use crate::example_files::{Example, examples_in};
use crate::fault::Fault;
use crate::outputs::html_of;
use cm_text::{Limits, Rules};
use std::alloc::{AllocError, Global};

/// An example whose output isn't its expected HTML.
#[derive(Debug, PartialEq, Eq, Drop)]
pub struct Difference {
    /// Its number in the file, counted from 1.
    pub number: usize,
    /// The expected HTML.
    pub expected: String,
    /// The HTML of its source.
    pub got: String,
}

/// The results of the examples of a file.
#[derive(Debug, PartialEq, Eq, Drop)]
pub struct Report {
    /// The number of examples.
    pub total: usize,
    /// The number of examples that agree: the HTML of their source is the expected one.
    pub agree: usize,
    /// Each of the others, in order.
    pub differ: Vec<Difference>,
}

impl Report {
    /// The number of examples, if all agree. It takes no memory.
    ///
    /// # Errors
    ///
    /// `Fault::ExampleDiffers` with the number of the first that differs.
    pub fn verdict(&self) -> Result<usize, Fault>
        ensures { result ≡ verdict_of (report_view self.now) }
    {
        match self.differ.first() {
            None => Ok(self.total),
            Some(first) => Err(Fault::ExampleDiffers {
                number: first.number,
            }),
        }
    }
}

/// Reads the source of each example of a text, and compares its HTML with the expected one.
///
/// An example is an opening line of 32 backticks, a space and `example`, the lines of its source, a line `.`,
/// the lines of its HTML, and a closing line of 32 backticks; in these lines U+2192 is a tab. Lines outside
/// of examples are skipped. Sources are read with the standard limits.
///
/// # Errors
///
/// `Fault::BadExampleFile` if an example isn't closed, with the number of its opening line; otherwise the
/// fault of the first source that has one. `Fault::NoMemory` if a request for memory was refused.
pub fn examples(alloc: Global, text: &str) -> Result<Report, Fault>
    ensures { Examines result profile text.now }
{
    examples_by(alloc, Rules::profile(), text)
}

/// The same as `examples`, with these rules.
///
/// # Errors
///
/// As `examples`.
pub fn examples_by(alloc: Global, rules: Rules, text: &str) -> Result<Report, Fault>
    ensures { Examines result rules text.now }
{
    let examples = examples_in(alloc, text)?;
    let limits = Limits::standard().with_rules(rules);
    let mut agree = 0;
    let mut differ = Vec::new(alloc);
    for (at, example) in examples.iter().enumerate() {
        let got = rendered(alloc, &example.source, limits)?;
        if got == example.html {
            agree += 1;
        } else {
            push_difference(&mut differ, at + 1, example.html.clone()?, got)?;
        }
    }
    Ok(Report {
        total: examples.len(),
        agree,
        differ,
    })
}

/// Appends one more difference.
fn push_difference(
    differ: &mut Vec<Difference>,
    number: usize,
    expected: String,
    got: String,
) -> Result<(), AllocError>
    ensures { OnOk result (map difference_of differ.new.items ≡ map difference_of differ.old.items
        ++ record { number = number; expected = string_bytes expected; got = string_bytes got } ∷ []) }
{
    differ.push(Difference {
        number,
        expected,
        got,
    })?;
    Ok(())
}

/// The HTML of a source.
fn rendered(alloc: Global, source: &str, limits: Limits) -> Result<String, Fault>
    ensures html { IfOk result (λ html. (fault_of limits source.now ≡ None)
        × (string_bytes html ≡ converted limits.rules source.now)) }
    ensures told { IfErr result (λ fault. TellsFault fault (fault_of limits source.now)) }
{
    Ok(html_of(alloc, source.as_bytes(), limits)?.into_string()?)
}
