//! A long text that links share.

use cm_html::{
    Element, Form, Pages, html, listing, push_break, push_link_start, write_html, write_listing,
};
use cm_text::Room;
use cm_tree::{Block, BoxedText, Doc, Inline, Items, LinkTarget, Text};
use std::alloc::{AllocError, Global};
use std::test::Fail;

/// How many quotation marks it has.
const LONG: usize = 100;

const ROOM: usize = 4_000;

fn long(alloc: Global) -> Result<BoxedText, AllocError> {
    BoxedText::new(alloc, Text::from("\"".repeat(alloc, LONG)?))
}

fn link(alloc: Global, text: &BoxedText) -> Result<Inline, AllocError> {
    Ok(Inline::Link {
        dest: text.clone()?,
        title: text.clone()?,
        content: Items::new(alloc),
    })
}

/// Two links, each to the text, and with the text as its title.
fn document(alloc: Global) -> Result<Doc, AllocError> {
    let text = long(alloc)?;
    let links = vec![in alloc; link(alloc, &text)?, link(alloc, &text)?]?;
    let paragraph = Block::Paragraph(Items::from(links));
    Ok(Doc {
        blocks: Items::from(vec![in alloc; paragraph]?),
        owners: Items::new(alloc),
    })
}

fn wanted_html(alloc: Global) -> Result<String, AllocError> {
    let dest = "%22".repeat(alloc, LONG)?;
    let title = "&quot;".repeat(alloc, LONG)?;
    let link = format!(in alloc; "<a href=\"{dest}\" title=\"{title}\"></a>")?;
    format!(in alloc; "<p>{link}{link}</p>\n")
}

fn wanted_listing(alloc: Global) -> Result<String, AllocError> {
    let text = "\\\"".repeat(alloc, LONG)?;
    let link = format!(in alloc; "  link \"{text}\" \"{text}\"\n")?;
    format!(in alloc; "paragraph\n{link}{link}")
}

#[test]
fn html_as_a_string_and_in_pages(rt: HostRuntime) -> Result<(), Fail> {
    let alloc = rt.alloc();
    let (doc, wanted) = (document(alloc)?, wanted_html(alloc)?);
    let written = html(alloc, &doc)?;
    assert!(rt; written == wanted);
    let mut room = Room::new(alloc, ROOM, ROOM)?;
    let len = write_html(alloc, &doc, &mut room)?;
    assert!(rt; len == wanted.len() && room.taken() == wanted.as_bytes());
    Ok(())
}

#[test]
fn listing_as_a_string_and_in_pages(rt: HostRuntime) -> Result<(), Fail> {
    let alloc = rt.alloc();
    let (doc, wanted) = (document(alloc)?, wanted_listing(alloc)?);
    let written = listing(alloc, &doc)?;
    assert!(rt; written == wanted);
    let mut room = Room::new(alloc, ROOM, ROOM)?;
    let len = write_listing(alloc, &doc, &mut room)?;
    assert!(rt; len == wanted.len() && room.taken() == wanted.as_bytes());
    Ok(())
}

#[test]
fn pages(rt: HostRuntime) -> Result<(), Fail> {
    let alloc = rt.alloc();
    let text = long(alloc)?;
    let shared = text.clone()?;
    let mut pages = Pages::new(alloc)?;
    pages.push_str("<")?;
    pages.push_escaped("<")?;
    pages.push_formed(Form::Escaped, &shared)?;
    pages.turn()?;
    pages.push_str(Element::Strike.start())?;
    pages.push_shared(Form::Escaped, &shared)?;
    pages.push_str(Element::Strike.end())?;
    push_break(&mut pages)?;
    let target = LinkTarget::Plain {
        dest: "\"",
        title: "",
    };
    push_link_start(&mut pages, target)?;
    let written = pages.into_string()?;
    let title = "&quot;".repeat(alloc, LONG)?;
    assert!(rt;
        written == format!(in alloc; "<&lt;{title}<del>{title}</del><hr />\n<a href=\"%22\">")?
    );
    Ok(())
}
