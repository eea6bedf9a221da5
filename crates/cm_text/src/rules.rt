//! Rules of a reading: four options in one value that the limits carry. Everything is proved for all sixteen.
ghost use Rattle.std.specs.Prelude.{◌≡◌};
ghost use Rattle.cm_text.specs.Rules.{profile, older_rules};

use std::marker::Model;

/// The rules for reading a text, where readers of CommonMark differ: whether the older ones hold, whether
/// there is strikethrough, whether there is raw HTML, and whether addresses of every scheme are followed.
/// Each can be combined with any of the others.
///
/// The older rules are this project's own, and match no earlier edition of the standard. With them Unicode
/// punctuation is the general categories P and ASCII punctuation, without the other symbols; `source`
/// replaces `search` among the names that start an HTML block of the sixth kind; and a comment in raw HTML
/// starts with neither `>` nor `->`, contains no `--`, and doesn't end with `-`.
///
/// Without raw HTML no line starts an HTML block, and no `<` raw HTML: both are text, and autolinks stay; and
/// the info of a code block is one line. An address that isn't followed makes no link, image or autolink:
/// what would be one is text.
#[derive(Clone, Copy, Debug, PartialEq, Eq, Drop)]
pub struct Rules {
    older: bool,
    strike: bool,
    raw_html: bool,
    any_address: bool,
}

impl Model for Rules {
    ghost use Rattle.cm_text.specs.Rules as rules;

    ghost Value = { rules.Rules };

    ghost view = { λ r. record {
      older = r.older;
      strike = r.strike;
      raw_html = r.raw_html;
      any_address = r.any_address;
    } };

    ghost inverse = { λ r. record {
      older = r.older;
      strike = r.strike;
      raw_html = r.raw_html;
      any_address = r.any_address;
    } };
}

impl Rules {
    /// CommonMark 0.31.2 as this project reads it: neither the older rules nor strikethrough, with raw HTML
    /// and with addresses of every scheme.
    pub fn profile() -> Rules
        ensures { result ≡ profile }
    {
        Rules {
            older: false,
            strike: false,
            raw_html: true,
            any_address: true,
        }
    }

    /// The older rules, without strikethrough, with raw HTML and with addresses of every scheme.
    pub fn older() -> Rules
        ensures { result ≡ older_rules }
    {
        Rules {
            older: true,
            strike: false,
            raw_html: true,
            any_address: true,
        }
    }

    /// The same rules with strikethrough, or without it.
    pub fn with_strike(self, strike: bool) -> Rules
        ensures { result ≡ record {
          older = self.older;
          strike = strike;
          raw_html = self.raw_html;
          any_address = self.any_address;
        } }
    {
        Rules { strike, ..self }
    }

    /// Whether there is strikethrough.
    pub fn strike(&self) -> bool
        ensures { result ≡ self.now.strike }
    {
        self.strike
    }

    /// The same rules with raw HTML, or without it.
    pub fn with_raw_html(self, raw_html: bool) -> Rules
        ensures { result ≡ record {
          older = self.older;
          strike = self.strike;
          raw_html = raw_html;
          any_address = self.any_address;
        } }
    {
        Rules { raw_html, ..self }
    }

    /// Whether there is raw HTML.
    pub fn raw_html(&self) -> bool
        ensures { result ≡ self.now.raw_html }
    {
        self.raw_html
    }

    /// The same rules with addresses of every scheme followed, or with those of the web alone (see
    /// [`is_followed`](crate::is_followed)).
    pub fn with_any_address(self, any_address: bool) -> Rules
        ensures { result ≡ record {
          older = self.older;
          strike = self.strike;
          raw_html = self.raw_html;
          any_address = any_address;
        } }
    {
        Rules {
            any_address,
            ..self
        }
    }

    /// Whether addresses of every scheme are followed.
    pub fn any_address(&self) -> bool
        ensures { result ≡ self.now.any_address }
    {
        self.any_address
    }

    /// Whether the older rules hold.
    pub fn is_older(&self) -> bool
        ensures { result ≡ self.now.older }
    {
        self.older
    }
}
