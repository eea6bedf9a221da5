//! Lines of a text.
ghost use Rattle.std.specs.Prelude.{◌≡◌, ◌+◌, ◌*◌, ◌^◌, ◌<◌, string_bytes, string_len, true};
ghost use Rattle.cm_text.specs.LineText.{is_line, tabs};

use crate::view::View;

/// A line, or the rest of one after the markers of containers.
///
/// Its text has no line feed and no carriage return.
#[derive(Debug, Drop, PartialEq, Eq)]
pub struct Line {
    /// The number of columns before the text.
    pub column: usize,
    /// The line without its ending.
    pub text: String,
    /// Whether the line continues a paragraph without the markers of its containers.
    pub lazy: bool,
    pub ghost one_line: { is_line (string_bytes text) ≡ true },
    pub ghost fits: { column + string_len text + 3 * tabs (string_bytes text) < 2 ^ 64 },
}

impl Line {
    ghost use Rattle.cm_text.specs.Lines.{seen_line};
    ghost use Rattle.cm_text.specs.Views.{seen_view};

    /// The line as a view. It takes no memory.
    pub fn view(&self) -> View<'_>
        ensures line { seen_view result ≡ seen_line self.now }
        ensures bare { result.spaces ≡ 0 }
    {
        View {
            column: self.column,
            spaces: 0,
            rest: &self.text,
            lazy: self.lazy,
        }
    }
}
