//! The rules that a table names by a word.

use crate::trouble::{Trouble, wrong};
use cm_text::Rules;
use std::alloc::Global;

/// The same rules for texts from strangers: without raw HTML, and with addresses of the web alone.
fn safe(rules: Rules) -> Rules {
    rules.with_raw_html(false).with_any_address(false)
}

/// The rules of this name: `profile`; `older`, `strike` or both; `no_html`, `web_links`, or `safe`, which is
/// both; or all.
pub fn rules_of(alloc: Global, name: &str) -> Result<Rules, Trouble> {
    match name {
        "profile" => Ok(Rules::profile()),
        "older" => Ok(Rules::older()),
        "strike" => Ok(Rules::profile().with_strike(true)),
        "older_strike" => Ok(Rules::older().with_strike(true)),
        "no_html" => Ok(Rules::profile().with_raw_html(false)),
        "web_links" => Ok(Rules::profile().with_any_address(false)),
        "safe" => Ok(safe(Rules::profile())),
        "older_strike_safe" => Ok(safe(Rules::older().with_strike(true))),
        _ => Err(wrong(alloc, "no rules have this name")),
    }
}
