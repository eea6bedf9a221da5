//! Documents that are made from their listings. A listing can also have a tree that no text gives.
//!
//! What is read is listed again and has to be the same, so the reading of listings needs no trust.

use crate::trouble::{Trouble, wrong};
use crate::words::{Word, number, words};
use cm_tree::{Block, BoxedText, Doc, Inline, Items, ListKind, Owner, Text};
use std::alloc::Global;

/// A node with children.
#[derive(Drop)]
enum Node {
    Paragraph,
    Heading(u8),
    Quote,
    List { kind: ListKind, tight: bool },
    Item,
    Emph,
    Strong,
    Strike,
    Link { dest: BoxedText, title: BoxedText },
    Image { dest: BoxedText, title: BoxedText },
}

/// A node that is read, and its children so far. Children of another kind than the node has are lost, so
/// that the listing of the document differs.
#[derive(Drop)]
struct Open {
    node: Node,
    blocks: Items<Block>,
    inlines: Items<Inline>,
    items: Items<Items<Block>>,
}

/// A node with all its children.
#[derive(Drop)]
enum Whole {
    Block(Block),
    Inline(Inline),
    Item(Items<Block>),
}

impl Open {
    /// The node with the children so far.
    fn whole(self) -> Whole {
        let Open {
            node,
            blocks,
            inlines: content,
            items,
        } = self;
        match node {
            Node::Paragraph => Whole::Block(Block::Paragraph(content)),
            Node::Heading(level) => Whole::Block(Block::Heading { level, content }),
            Node::Quote => Whole::Block(Block::Quote(blocks)),
            Node::List { kind, tight } => Whole::Block(Block::List { kind, tight, items }),
            Node::Item => Whole::Item(blocks),
            Node::Emph => Whole::Inline(Inline::Emph(content)),
            Node::Strong => Whole::Inline(Inline::Strong(content)),
            Node::Strike => Whole::Inline(Inline::Strike(content)),
            Node::Link { dest, title } => Whole::Inline(Inline::Link {
                dest,
                title,
                content,
            }),
            Node::Image { dest, title } => Whole::Inline(Inline::Image {
                dest,
                title,
                content,
            }),
        }
    }
}

/// The node of this name that has children and no words.
fn bare_node(name: &str) -> Option<Node> {
    match name {
        "paragraph" => Some(Node::Paragraph),
        "quote" => Some(Node::Quote),
        "item" => Some(Node::Item),
        "emph" => Some(Node::Emph),
        "strong" => Some(Node::Strong),
        "strike" => Some(Node::Strike),
        _ => None,
    }
}

/// The nodes that are read, from the outside in, and the document so far.
#[derive(Drop)]
struct Reading {
    alloc: Global,
    open: Vec<Open>,
    doc: Doc,
}

impl Reading {
    fn open(&mut self, node: Node) -> Result<bool, Trouble> {
        self.open.push(Open {
            node,
            blocks: Items::new(self.alloc),
            inlines: Items::new(self.alloc),
            items: Items::new(self.alloc),
        })?;
        Ok(true)
    }

    fn block(&mut self, block: Block) -> Result<bool, Trouble> {
        match self.open.last_mut() {
            Some(open) => open.blocks.push(block)?,
            None => self.doc.blocks.push(block)?,
        }
        Ok(true)
    }

    fn inline(&mut self, inline: Inline) -> Result<bool, Trouble> {
        match self.open.last_mut() {
            Some(open) => open.inlines.push(inline)?,
            None => return Err(wrong(self.alloc, "an inline stands outside a block")),
        }
        Ok(true)
    }

    /// Adds the innermost node that is read to the children of the enclosing one.
    fn close(&mut self) -> Result<bool, Trouble> {
        let Some(open) = self.open.pop() else {
            return Ok(false);
        };
        match open.whole() {
            Whole::Block(block) => self.block(block),
            Whole::Inline(inline) => self.inline(inline),
            Whole::Item(blocks) => {
                if let Some(list) = self.open.last_mut() {
                    list.items.push(blocks)?;
                }
                Ok(true)
            }
        }
    }

    /// Closes the nodes until `depth` are open.
    fn close_to(&mut self, depth: usize) -> Result<(), Trouble> {
        for _ in depth..self.open.len() {
            self.close()?;
        }
        Ok(())
    }

    fn is_in_inlines(&self) -> bool {
        match self.open.last() {
            None => false,
            Some(open) => !matches!(open.node, Node::Quote | Node::List { .. } | Node::Item),
        }
    }

    fn text(&self, text: &String) -> Result<Text, Trouble> {
        Ok(Text::from_str(self.alloc, text.as_str())?)
    }

    fn boxed_text(&self, text: &String) -> Result<BoxedText, Trouble> {
        Ok(BoxedText::new(self.alloc, self.text(text)?)?)
    }

    /// `list bullet * tight`
    fn bullet_list(&mut self, bullet: &str, width: &str) -> Result<bool, Trouble> {
        let kind = match bullet {
            "-" => ListKind::Dash,
            "+" => ListKind::Plus,
            _ => ListKind::Star,
        };
        let tight = width == "tight";
        self.open(Node::List { kind, tight })
    }

    /// `list ordered . 1 tight`
    fn ordered_list(&mut self, mark: &str, start: &str, width: &str) -> Result<bool, Trouble> {
        let start = match u32::try_from(number(self.alloc, start)?) {
            Ok(start) => start,
            Err(_) => return Err(wrong(self.alloc, "a list begins past 32 bits")),
        };
        let kind = if mark == "." {
            ListKind::Dot { start }
        } else {
            ListKind::Paren { start }
        };
        let tight = width == "tight";
        self.open(Node::List { kind, tight })
    }

    /// A node of this name without words, if there is one.
    fn bare_line(&mut self, name: &str) -> Result<bool, Trouble> {
        if let Some(node) = bare_node(name) {
            return self.open(node);
        }
        match name {
            "break" => self.block(Block::Break),
            "soft" => self.inline(Inline::Soft),
            "hard" => self.inline(Inline::Hard),
            _ => Ok(false),
        }
    }

    /// A node without words between quotation marks, if the line is one.
    fn plain_line(&mut self, name: &str, words: &[Word]) -> Result<bool, Trouble> {
        match (name, words) {
            (_, []) => self.bare_line(name),
            ("heading", [Word::Plain(level)]) => {
                let level = number(self.alloc, level.as_str())?;
                self.open(Node::Heading(u8::try_from(level).unwrap_or(0)))
            }
            ("list", [_, Word::Plain(bullet), Word::Plain(width)]) => {
                self.bullet_list(bullet.as_str(), width.as_str())
            }
            ("list", [_, Word::Plain(mark), Word::Plain(start), Word::Plain(width)]) => {
                self.ordered_list(mark.as_str(), start.as_str(), width.as_str())
            }
            _ => Ok(false),
        }
    }

    /// A node of this name with one text, if there is one.
    fn one_text(&mut self, name: &str, text: &String) -> Result<bool, Trouble> {
        let text = self.text(text)?;
        let inline = match name {
            "text" => Inline::Text(text),
            "code" => Inline::Code(text),
            "html" if self.is_in_inlines() => Inline::Html(text),
            "html" => return self.block(Block::Html { text }),
            _ => return Ok(false),
        };
        self.inline(inline)
    }

    /// A link or an image.
    fn link(&mut self, name: &str, dest: &String, title: &String) -> Result<bool, Trouble> {
        let dest = self.boxed_text(dest)?;
        let title = self.boxed_text(title)?;
        self.open(if name == "link" {
            Node::Link { dest, title }
        } else {
            Node::Image { dest, title }
        })
    }

    fn code_block(&mut self, info: &String, text: &String) -> Result<bool, Trouble> {
        let info = self.text(info)?;
        let text = self.text(text)?;
        self.block(Block::Code { info, text })
    }

    fn definition(
        &mut self,
        label: &String,
        dest: &String,
        title: &String,
    ) -> Result<bool, Trouble> {
        let label = self.text(label)?;
        let dest = self.text(dest)?;
        let title = self.text(title)?;
        self.block(Block::Definition { label, dest, title })
    }

    /// A node with texts, if the line is one.
    fn text_line(&mut self, name: &str, words: &[Word]) -> Result<bool, Trouble> {
        match (name, words) {
            (_, [Word::Text(text)]) => self.one_text(name, text),
            ("code", [Word::Text(info), Word::Text(text)]) => self.code_block(info, text),
            ("link" | "image", [Word::Text(dest), Word::Text(title)]) => {
                self.link(name, dest, title)
            }
            ("definition", [Word::Text(label), Word::Text(dest), Word::Text(title)]) => {
                self.definition(label, dest, title)
            }
            _ => Ok(false),
        }
    }

    /// The owner of a line, if the line is one.
    fn owner_line(&mut self, name: &str, words: &[Word]) -> Result<bool, Trouble> {
        let owner = match (name, words) {
            ("owner", [_, Word::Plain(_), Word::Plain(leaf)]) => {
                Owner::Leaf(number(self.alloc, leaf.as_str())?)
            }
            ("owner", [_, word]) if word.is("marker") => Owner::Marker,
            ("owner", [_, _]) => Owner::Blank,
            _ => return Ok(false),
        };
        self.doc.owners.push(owner)?;
        Ok(true)
    }

    fn line(&mut self, line: &str) -> Result<(), Trouble> {
        let depth = line.chars().take_while(|c| *c == ' ').count() / 2;
        self.close_to(depth)?;
        let all = words(self.alloc, line)?;
        let Some((Word::Plain(name), rest)) = all.split_first() else {
            return Err(wrong(self.alloc, "a line of a listing has no name"));
        };
        let name = name.as_str();
        let is_read = self.plain_line(name, rest)?
            || self.text_line(name, rest)?
            || self.owner_line(name, rest)?;
        if is_read {
            return Ok(());
        }
        Err(wrong(self.alloc, "a line of a listing is no node"))
    }
}

/// The document with this listing. (`listing` shows whether it has it.)
pub fn listed(alloc: Global, text: &str) -> Result<Doc, Trouble> {
    let mut reading = Reading {
        alloc,
        open: Vec::new(alloc),
        doc: Doc {
            blocks: Items::new(alloc),
            owners: Items::new(alloc),
        },
    };
    for line in text.lines() {
        reading.line(line)?;
    }
    reading.close_to(0)?;
    Ok(reading.doc)
}
