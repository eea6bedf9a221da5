//! The document and the HTML of a text that was read in pieces.
ghost use Rattle.std.specs.Prelude.{◌≡◌, ℕ, List, Some, Err};
ghost use Rattle.cm_text.specs.Limits.{LimitsView};
ghost use Rattle.cm_tool.specs.declared.fault.Fault as faults;
ghost use Rattle.cm_tool.specs.Parsing.{HasTakenIn, Finishes, Makes};
ghost use Rattle.cm_tool.specs.Writing.{converted};

use crate::fault::Fault;
use crate::outlines::{doc_of_outline, html_of_outline};
use crate::reading::Parser;
use cm_html::Pages;
use cm_tree::Doc;

impl Parser {
    /// The HTML of the document of the bytes so far, in pages. No tree is made.
    ///
    /// # Errors
    ///
    /// As `finish`.
    pub fn finish_html(self) -> Result<Pages, Fault>
        ensures finishes { (limits : LimitsView) (bytes : List ℕ) → HasTakenIn limits self bytes
            → Makes (λ pages. pages ≡ converted limits.rules bytes) result limits bytes }
        ensures failed { (fault : faults.Fault) → self.fault ≡ Some fault → result ≡ Err fault }
    {
        let (alloc, limits) = (self.alloc, self.limits());
        html_of_outline(alloc, limits, self.outline()?, usize::MAX)
    }

    /// The document of the bytes so far.
    pub fn finish(self) -> Result<Doc, Fault>
        ensures finishes { (limits : LimitsView) (bytes : List ℕ) → HasTakenIn limits self bytes
            → Finishes result limits bytes }
        ensures failed { (fault : faults.Fault) → self.fault ≡ Some fault → result ≡ Err fault }
    {
        let (alloc, limits) = (self.alloc, self.limits());
        doc_of_outline(alloc, limits, self.outline()?)
    }
}
