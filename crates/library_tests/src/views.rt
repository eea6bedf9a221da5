//! Lines seen without a copy.

use cm_text::Line;
use std::test::Fail;

#[test]
fn past_a_marker(rt: HostRuntime) -> Result<(), Fail> {
    let line = Line {
        column: 2,
        text: String::from_str(rt.alloc(), ">\t\u{E9}")?,
        lazy: false,
    };
    let inside = line.view().past(1).strip(1);
    let seen = (inside.column, inside.spaces, inside.lazy);
    assert!(rt; seen == (4, 0, false) && inside.rest == "\u{E9}");
    Ok(())
}
