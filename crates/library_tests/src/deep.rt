//! A tree that nests deep.

use cm_html::{html, listing};
use cm_tree::{Block, Doc, Inline, Items, Text};
use std::alloc::{AllocError, Global};
use std::test::Fail;

const DEPTH: usize = 500;

/// A text inside a number of emphases inside a number of quotes.
fn nested(alloc: Global) -> Result<Block, AllocError> {
    let text = Inline::Text(Text::from_str(alloc, "a")?);
    let mut content = Items::from(vec![in alloc; text]?);
    for _ in 0..DEPTH {
        content = Items::from(vec![in alloc; Inline::Emph(content)]?);
    }
    let mut block = Block::Paragraph(content);
    for _ in 0..DEPTH {
        block = Block::Quote(Items::from(vec![in alloc; block]?));
    }
    Ok(block)
}

fn document(alloc: Global) -> Result<Doc, AllocError> {
    Ok(Doc {
        blocks: Items::from(vec![in alloc; nested(alloc)?]?),
        owners: Items::new(alloc),
    })
}

/// The parts of the HTML, each with its number.
const PARTS: [(&str, usize); 7] = [
    ("<blockquote>\n", DEPTH),
    ("<p>", 1),
    ("<em>", DEPTH),
    ("a", 1),
    ("</em>", DEPTH),
    ("</p>\n", 1),
    ("</blockquote>\n", DEPTH),
];

fn wanted_html(alloc: Global) -> Result<String, AllocError> {
    let mut text = String::new(alloc);
    for (part, times) in PARTS {
        text.push_str(part.repeat(alloc, times)?.as_str())?;
    }
    Ok(text)
}

/// The line of the listing for a node inside `depth` nodes.
fn line(depth: usize) -> &'static str {
    match depth {
        0..DEPTH => "quote\n",
        DEPTH => "paragraph\n",
        _ if depth <= 2 * DEPTH => "emph\n",
        _ => "text \"a\"\n",
    }
}

fn wanted_listing(alloc: Global) -> Result<String, AllocError> {
    let mut text = String::new(alloc);
    for depth in 0..=2 * DEPTH + 1 {
        text.push_str("  ".repeat(alloc, depth)?.as_str())?;
        text.push_str(line(depth))?;
    }
    Ok(text)
}

#[test]
fn html_of_quotes_and_emphasis(rt: HostRuntime) -> Result<(), Fail> {
    let alloc = rt.alloc();
    let written = html(alloc, &document(alloc)?)?;
    assert!(rt; written == wanted_html(alloc)?);
    Ok(())
}

#[test]
fn listing_of_a_copy(rt: HostRuntime) -> Result<(), Fail> {
    let alloc = rt.alloc();
    let written = listing(alloc, &document(alloc)?.clone()?)?;
    assert!(rt; written == wanted_listing(alloc)?);
    Ok(())
}
