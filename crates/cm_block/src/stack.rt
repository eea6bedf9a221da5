//! The open quotes and items.
//!
//! A line is read no further than each container needs. An item takes its columns and looks at nothing else,
//! a lazy line enters all remaining containers at once, and items that follow one another are passed in one
//! loop over columns. So the indentation of a line is read once, not once for each container.
//!
//! Only the innermost container can be an item with only its marker. So one mark on the stack
//! suffices, and no open container changes when a line enters it.
//!
//! The next item of a list takes the place of the one before: its container stays, and the level inside is
//! emptied. So between items nothing is taken from the stack and put back.
ghost use Rattle.std.specs.Prelude.{◌≡◌, ◌<◌, ◌≤◌, ◌∷◌, ◌++◌, ◌+◌, ◌&&◌, []};
ghost use Rattle.std.specs.Prelude.{Bool, true, false, suc, List, length, take, drop, None, OnOk, IfOk};
ghost use Rattle.cm_text.specs.Rules as all;
ghost use Rattle.cm_block.specs.Prelude.{seen_view, given, continuation_if_lazy, Raw};
ghost use Rattle.cm_block.specs.steps.LineTests.{Tested};
ghost use Rattle.cm_block.specs.Level.{empty_level, block_opens, block_closes};
ghost use Rattle.cm_block.specs.Level.{closed_blocks, item_opens, push_blank};
ghost use Rattle.cm_block.specs.steps.LeafBlocks.{block_of};
ghost use Rattle.cm_block.specs.steps.LevelViews.{level_in, IsLevelPlaced};
ghost use Rattle.cm_block.specs.Frames.{a_quote, an_item, is_last, Frame as open_frame};
ghost use Rattle.cm_block.specs.steps.FrameSteps.{continuation_in, inward, matching, beyond, LeavesNext};
ghost use Rattle.cm_block.specs.steps.FrameSteps.{quoted_by, close_container, close_frames};
ghost use Rattle.cm_block.specs.steps.FrameSteps.{closed_to, is_continued_by};
ghost use Rattle.cm_block.specs.steps.ContinuationViews.{IsInside, stays};
ghost use Rattle.cm_block.specs.declared.stack.Stays.TheVariants.{Inside, Lazily, Leaves};
ghost use Rattle.cm_block.specs.steps.FrameViews.{container_of, frames_in, quotes_of, quotes_in};
ghost use Rattle.cm_block.specs.steps.FrameViews.{AreFramesPlaced};

use crate::counted_line::{CountedLine, LineInItems};
use crate::leaf_block::LeafBlock;
use crate::level::Level;
use crate::room::Room;
use cm_text::{NoMemory, Rules};
use cm_tree::{ListKind, RawBlocks, RawChunk, RawTree};
use std::alloc::{AllocError, Global};
use std::marker::Model;
use std::mem;

/// A quote, or an item of a list with the column at which its content starts.
#[derive(Clone, Copy, Debug)]
pub(crate) enum Container {
    Quote,
    Item { kind: ListKind, column: usize },
}

/// How a line stays in an open container, if it does.
#[derive(Clone, Copy)]
pub(crate) enum Stays {
    /// After the container's marker or indentation.
    Inside,
    /// As a lazy continuation line, which enters all containers inside unchanged.
    Lazily,
    /// It doesn't stay there.
    Leaves,
}

impl Container {
    /// How many quotes it is.
    fn quotes(self) -> usize
        ensures { result ≡ quotes_of (container_of self) }
    {
        match self {
            Container::Quote => 1,
            Container::Item { .. } => 0,
        }
    }

    /// Whether the line stays in the container by itself, and if so enters it. `bare` says of an item that
    /// there is only its marker so far, with nothing on its line.
    fn has_inside(&self, bare: bool, line: &mut CountedLine<'_>) -> bool
        ensures continuation { (by : all.Rules) → IsInside result
            (continuation_in by (container_of self.now) bare (seen_view line.old.rest))
            (continuation_if_lazy by (seen_view line.old.rest))
            (seen_view line.new.rest) }
        ensures same { result ≡ false → line.new.rest ≡ line.old.rest }
        ensures tests { Tested 1 1 line.old.tests line.new.tests }
    {
        match *self {
            Container::Quote => line.stays_in_quote(),
            Container::Item { column, .. } => line.stays_in_item(column, bare),
        }
    }

    /// Enters the container with a line that stays in it, by itself or as a lazy continuation line. Returns
    /// how it stays. `open_text` says that a paragraph is left open.
    fn take_in(
        &self,
        rules: Rules,
        bare: bool,
        open_text: bool,
        line: &mut CountedLine<'_>,
    ) -> Stays
        ensures line { given (stays result) (seen_view line.new.rest)
            ≡ inward rules (container_of self.now) bare open_text (seen_view line.old.rest) }
        ensures same { result ≡ Leaves → line.new.rest ≡ line.old.rest }
        ensures lazy { result ≡ Lazily → line.new.rest.lazy ≡ true }
        ensures tests { Tested 1 2 line.old.tests line.new.tests }
        ensures once { result ≡ Inside → Tested 1 1 line.old.tests line.new.tests }
    {
        if self.has_inside(bare, line) {
            return Stays::Inside;
        }
        if line.goes_on_lazily(rules, open_text) {
            return Stays::Lazily;
        }
        Stays::Leaves
    }
}

/// An open container, and the level that contains it.
#[derive(Debug, Drop)]
pub(crate) struct Frame {
    pub(crate) level: Level,
    pub(crate) container: Container,
}

impl Frame {
    /// Whether the container is an item, and one of this kind continues its list.
    fn is_continued_by(&self, kind: ListKind) -> bool
        ensures { (raw : Raw) → result
            ≡ is_continued_by kind (container_of self.now.container) (level_in raw self.now.level) }
    {
        matches!(self.container, Container::Item { .. }) && self.level.has_list_of(kind)
    }
}

/// The number of items that a line has entered by itself, and whether the next container is an item in which
/// it doesn't stay.
#[derive(Clone, Copy)]
struct EnteredItems {
    count: usize,
    leaves: bool,
}

impl EnteredItems {
    /// None.
    #[inline(always)]
    fn none() -> EnteredItems
        ensures { result ≡ record { count = 0; leaves = false } }
    {
        EnteredItems {
            count: 0,
            leaves: false,
        }
    }
}

/// Whether the first of the containers is an item.
#[inline(always)]
fn begin_with_item(frames: &[Frame]) -> bool {
    matches!(
        frames,
        [
            Frame {
                container: Container::Item { .. },
                ..
            },
            ..,
        ]
    )
}

/// Enters the items that these containers start with, as far as the line stays there by itself. There is more
/// of each item than its marker. Each item is one reading, and so is the next one if the line doesn't stay
/// there (5.2 List items).
#[inline(always)]
fn go_into_items(frames: &[Frame], line: &mut LineInItems<'_>) -> EnteredItems
    requires plain { line.old.inner.lazy ≡ false }
    requires unread { line.old.tests ≡ 0 }
    ensures through { (rules : all.Rules) (open_text : Bool) (raw : Raw) → beyond result.count
        (matching rules false open_text (drop result.count (frames_in raw frames.now))
        (seen_view line.new.inner))
        ≡ matching rules false open_text (frames_in raw frames.now) (seen_view line.old.inner) }
    ensures within { result.count ≤ length frames.now }
    ensures more { result.leaves ≡ true → result.count < length frames.now }
    ensures leaves { result.leaves ≡ true → (raw : Raw) →
        LeavesNext (frames_in raw frames.now) result.count (seen_view line.new.inner) }
    ensures tests { result.leaves ≡ false → line.new.tests ≡ result.count }
    ensures next { result.leaves ≡ true → line.new.tests ≡ suc result.count }
{
    for depth in 0..frames.len() {
        let Container::Item { column, .. } = frames[depth].container else {
            return EnteredItems {
                count: depth,
                leaves: false,
            };
        };
        if !line.stays_in(column) {
            return EnteredItems {
                count: depth,
                leaves: true,
            };
        }
    }
    EnteredItems {
        count: frames.len(),
        leaves: false,
    }
}

/// The same as `go_into_items`. `bare` says that there is only the marker of the innermost container; then
/// the line enters none.
#[inline(always)]
fn enter_items(frames: &[Frame], bare: bool, line: &mut CountedLine<'_>) -> EnteredItems
    ensures through { (rules : all.Rules) (open_text : Bool) (raw : Raw) → beyond result.count
        (matching rules bare open_text (drop result.count (frames_in raw frames.now))
        (seen_view line.new.rest))
        ≡ matching rules bare open_text (frames_in raw frames.now) (seen_view line.old.rest) }
    ensures within { result.count ≤ length frames.now }
    ensures more { result.leaves ≡ true → result.count < length frames.now }
    ensures leaves { result.leaves ≡ true → (raw : Raw) →
        LeavesNext (frames_in raw frames.now) result.count (seen_view line.new.rest) }
    ensures all { result.leaves ≡ true → bare ≡ false }
    ensures tests { result.leaves ≡ false →
        Tested result.count result.count line.old.tests line.new.tests }
    ensures next { result.leaves ≡ true →
        Tested (suc result.count) (suc result.count) line.old.tests line.new.tests }
{
    if bare || !begin_with_item(frames) {
        return EnteredItems::none();
    }
    let Some(mut inner) = line.to_items() else {
        return EnteredItems::none();
    };
    let entered = go_into_items(frames, &mut inner);
    line.enter_items(inner);
    entered
}

/// Whether a container is the innermost one and has only its marker so far.
fn is_bare_at(frames: &[Frame], depth: usize, bare: bool) -> bool
    requires { depth < length frames.now }
    ensures { (raw : Raw) → result ≡ (bare && is_last (drop (suc depth) (frames_in raw frames.now))) }
{
    bare && depth == frames.len() - 1
}

/// Enters the containers in which the line stays. Returns their number.
fn matching(
    rules: Rules,
    frames: &[Frame],
    bare: bool,
    open_text: bool,
    line: &mut CountedLine<'_>,
) -> usize
    ensures line { (raw : Raw) → (result, seen_view line.new.rest)
        ≡ matching rules bare open_text (frames_in raw frames.now) (seen_view line.old.rest) }
    ensures tests { Tested 0 (suc (length frames.now)) line.old.tests line.new.tests }
    ensures stays { line.new.tests ≤ line.old.tests + result + 2 }
    ensures plain { line.new.rest.lazy ≡ false → length frames.now ≤ result →
        line.new.tests ≤ line.old.tests + result }
{
    if frames.is_empty() {
        return 0;
    }
    let first = enter_items(frames, bare, line);
    if first.leaves {
        return if line.goes_on_lazily(rules, open_text) {
            frames.len()
        } else {
            first.count
        };
    }
    for depth in first.count..frames.len() {
        let container = frames[depth].container;
        let is_bare = is_bare_at(frames, depth, bare);
        match container.take_in(rules, is_bare, open_text, line) {
            Stays::Inside => {}
            Stays::Lazily => return frames.len(),
            Stays::Leaves => return depth,
        }
    }
    frames.len()
}

/// The open containers from the outside in, and the level of the innermost: without any, the document's.
///
/// `bare` says that the innermost container is an item with only its marker so far.
#[derive(Debug, Drop)]
pub(crate) struct Stack {
    alloc: Global,
    /// The chunks that are finished.
    chunks: RawTree,
    frames: Vec<Frame>,
    /// The number of quotes among the containers.
    quotes: usize,
    bare: bool,
    level: Level,
    raw: RawBlocks,
    /// Memory for the next containers and lists.
    room: Room,
    ghost counted: { quotes ≡ quotes_in frames.items },
}

impl Model for Stack {
    ghost use Rattle.cm_block.specs.Frames.{Row};
    ghost use Rattle.std.specs.Coded.{codes};
    ghost use Rattle.cm_tree.specs.contracts.tree.Block as block;
    ghost use Rattle.cm_tree.specs.contracts.tree.ListKind as list_kind;
    ghost use Rattle.cm_block.specs.steps.FrameViews.{frames_in, AreFramesPlaced};
    ghost use Rattle.cm_block.specs.steps.LevelViews.{level_in, IsLevelPlaced};
    ghost use Rattle.cm_block.specs.steps.FrontViews.{frames_after, innermost};

    ghost Value = { Row };

    ghost coded = { Prim.hlevel (codes, block.the_row.coded, list_kind.the_row.coded) };

    ghost view = { λ s. record {
      frames = frames_after s.chunks (frames_in s.raw s.frames.items);
      bare = s.bare;
      level = innermost s.chunks (frames_in s.raw s.frames.items) (level_in s.raw s.level);
    } };

    ghost invariant = { λ s. AreFramesPlaced s.raw s.frames.items × IsLevelPlaced s.raw s.level };
}

impl Stack {
    /// The document, in which nothing is open. It takes no memory.
    pub(crate) fn new(alloc: Global) -> Stack
        ensures frames { result.frames ≡ [] }
        ensures bare { result.bare ≡ false }
        ensures level { result.level ≡ empty_level }
    {
        Stack {
            alloc,
            chunks: RawTree::new(alloc),
            frames: Vec::new(alloc),
            quotes: 0,
            bare: false,
            level: Level::new(Vec::new(alloc)),
            raw: RawBlocks::new(alloc),
            room: Room::new(alloc),
        }
    }

    /// Enters the containers in which the line stays. Returns their number. An empty line stays in all items.
    pub(crate) fn matching(
        &self,
        rules: Rules,
        line: &mut CountedLine<'_>,
        open_text: bool,
    ) -> usize
        ensures line { (result, seen_view line.new.rest)
            ≡ matching rules self.now.bare open_text self.now.frames (seen_view line.old.rest) }
        ensures tests { Tested 0 (suc (length self.now.frames)) line.old.tests line.new.tests }
        ensures stays { line.new.tests ≤ line.old.tests + result + 2 }
        ensures plain { line.new.rest.lazy ≡ false → length self.now.frames ≤ result →
            line.new.tests ≤ line.old.tests + result }
    {
        if line.is_empty() && !self.is_quoted() && !self.is_bare() {
            return self.depth();
        }
        matching(rules, self.frames.as_slice(), self.bare, open_text, line)
    }

    /// Whether one of the open containers is a quote.
    pub(crate) fn is_quoted(&self) -> bool
        ensures { result ≡ quoted_by false self.now.frames }
    {
        self.quotes > 0
    }

    /// Opens a container, and enters it: the innermost level becomes its enclosing one.
    fn open(&mut self, alloc: Global, container: Container) -> Result<(), AllocError>
        ensures frames { OnOk result (self.new.frames
            ≡ self.old.frames ++ record { level = self.old.level; container = container_of container } ∷ []) }
        ensures level { OnOk result (self.new.level ≡ empty_level) }
        ensures bare { self.new.bare ≡ self.old.bare }
    {
        let inside = Level::new(self.room.take_blocks(alloc));
        let level = mem::replace(&mut self.level, inside);
        self.frames.push(Frame { level, container })?;
        self.quotes += container.quotes();
        Ok(())
    }

    /// Opens a quote.
    pub(crate) fn open_quote(&mut self, alloc: Global) -> Result<(), AllocError>
        ensures frames { OnOk result (self.new.frames
            ≡ self.old.frames ++ record { level = block_opens self.old.level; container = a_quote } ∷ []) }
        ensures level { OnOk result (self.new.level ≡ empty_level) }
        ensures bare { self.new.bare ≡ self.old.bare }
    {
        self.level.open_block(&mut self.raw, &mut self.room)?;
        self.finish_chunk()?;
        self.open(alloc, Container::Quote)
    }

    /// Closes the open list, unless an item of this kind continues it. Then a chunk may be finished.
    fn begin_list(&mut self, kind: ListKind) -> Result<(), AllocError>
        ensures level { OnOk result (item_opens self.new.level kind ≡ item_opens self.old.level kind) }
        ensures frames { self.new.frames ≡ self.old.frames }
        ensures bare { self.new.bare ≡ self.old.bare }
    {
        if self.level.has_list_of(kind) {
            return Ok(());
        }
        self.open_block()
    }

    /// Opens an item.
    fn open_item(&mut self, alloc: Global, kind: ListKind, column: usize) -> Result<(), AllocError>
        ensures frames { OnOk result (self.new.frames
            ≡ self.old.frames
            ++ record { level = item_opens self.old.level kind; container = an_item kind column } ∷ []) }
        ensures level { OnOk result (self.new.level ≡ empty_level) }
        ensures bare { self.new.bare ≡ self.old.bare }
    {
        self.begin_list(kind)?;
        self.level
            .open_item(alloc, &mut self.raw, &mut self.room, kind)?;
        self.open(alloc, Container::Item { kind, column })
    }

    /// Closes the innermost container, if there is one.
    fn close_last(&mut self) -> Result<(), AllocError>
        ensures closes { OnOk result ((outer : List open_frame) (last : open_frame) →
            self.old.frames ≡ outer ++ last ∷ [] →
            (self.new.frames ≡ outer)
            × (self.new.level ≡ close_container last.container last.level self.old.level)) }
        ensures bare { self.new.bare ≡ self.old.bare }
    {
        let Some(Frame { level, container }) = self.frames.pop() else {
            return Ok(());
        };
        self.quotes -= container.quotes();
        let inside = mem::replace(&mut self.level, level);
        let (ends_blank, separated) = (inside.ends_blank, inside.separated);
        let blocks = inside.into_blocks(&mut self.raw, &mut self.room)?;
        match container {
            Container::Quote => {
                let quote = self.raw.quote(&blocks)?;
                self.room.keep_blocks(blocks);
                self.level.close_block(quote)
            }
            Container::Item { .. } => {
                let item = self.raw.item(&blocks)?;
                self.room.keep_blocks(blocks);
                self.level.close_item(item, ends_blank, separated)
            }
        }
    }

    /// Closes the containers from the inside out until `depth` are open. Mostly there are no more.
    #[inline(always)]
    pub(crate) fn close_to(&mut self, depth: usize) -> Result<(), AllocError>
        requires { depth ≤ length self.old.frames }
        ensures frames { OnOk result (self.new.frames ≡ take depth self.old.frames) }
        ensures level { OnOk result (self.new.level
            ≡ close_frames (drop depth self.old.frames) self.old.level) }
        ensures bare { self.new.bare ≡ self.old.bare }
    {
        if self.depth() == depth {
            return Ok(());
        }
        self.close_after(depth)
    }

    /// Closes the containers after the first `depth`, from the inside out.
    #[inline(never)]
    fn close_after(&mut self, depth: usize) -> Result<(), AllocError>
        requires { depth ≤ length self.old.frames }
        ensures frames { OnOk result (self.new.frames ≡ take depth self.old.frames) }
        ensures level { OnOk result (self.new.level
            ≡ close_frames (drop depth self.old.frames) self.old.level) }
        ensures bare { self.new.bare ≡ self.old.bare }
    {
        while self.frames.len() > depth {
            self.close_last()?;
        }
        Ok(())
    }

    /// Puts an item in the place of the innermost container, if that is an item of the same list. Returns
    /// whether it is.
    fn replace_item(&mut self, kind: ListKind, column: usize) -> Result<bool, AllocError>
        ensures frames { IfOk result (λ replaced. replaced ≡ true →
            (outer : List open_frame) (last : open_frame) → self.old.frames ≡ outer ++ last ∷ [] →
            self.new.frames ≡ outer ++ record {
              level = item_opens (close_container last.container last.level self.old.level) kind;
              container = an_item kind column;
            } ∷ []) }
        ensures level { IfOk result (λ replaced. replaced ≡ true → self.new.level ≡ empty_level) }
        ensures same { IfOk result (λ replaced. replaced ≡ false → self.new ≡ self.old) }
        ensures bare { self.new.bare ≡ self.old.bare }
    {
        let Some(frame) = self.frames.last_mut() else {
            return Ok(false);
        };
        if !frame.is_continued_by(kind) {
            return Ok(false);
        }
        self.level
            .begin_next_item(&mut self.raw, &mut self.room, &mut frame.level)?;
        frame.container = Container::Item { kind, column };
        Ok(true)
    }

    /// Closes the containers after the first `depth`, because an item starts. If it continues the list of the
    /// outermost of these, it takes its place. Returns whether it does.
    #[inline(always)]
    fn close_to_item(
        &mut self,
        depth: usize,
        kind: ListKind,
        column: usize,
    ) -> Result<bool, AllocError>
        requires { depth ≤ length self.old.frames }
        ensures frames { IfOk result (λ replaced. replaced ≡ true → self.new.frames
            ≡ take depth self.old.frames
            ++ record {
              level = item_opens (close_frames (drop depth self.old.frames) self.old.level) kind;
              container = an_item kind column;
            } ∷ []) }
        ensures level { IfOk result (λ replaced. replaced ≡ true → self.new.level ≡ empty_level) }
        ensures closed { IfOk result (λ replaced. replaced ≡ false →
            self.new ≡ closed_to depth self.old) }
        ensures bare { self.new.bare ≡ self.old.bare }
    {
        if self.depth() == depth {
            return Ok(false);
        }
        self.close_to(depth + 1)?;
        if self.replace_item(kind, column)? {
            return Ok(true);
        }
        self.close_to(depth)?;
        Ok(false)
    }

    /// Closes the containers after the first `depth`, and opens an item.
    #[inline(always)]
    pub(crate) fn next_item(
        &mut self,
        alloc: Global,
        depth: usize,
        kind: ListKind,
        column: usize,
    ) -> Result<(), AllocError>
        requires { depth ≤ length self.old.frames }
        ensures frames { OnOk result (self.new.frames
            ≡ take depth self.old.frames
            ++ record {
              level = item_opens (close_frames (drop depth self.old.frames) self.old.level) kind;
              container = an_item kind column;
            } ∷ []) }
        ensures level { OnOk result (self.new.level ≡ empty_level) }
        ensures bare { self.new.bare ≡ self.old.bare }
    {
        if self.close_to_item(depth, kind, column)? {
            return Ok(());
        }
        self.open_item(alloc, kind, column)
    }

    /// How many containers are open.
    pub(crate) fn depth(&self) -> usize
        ensures { result ≡ length self.now.frames }
    {
        self.frames.len()
    }

    /// Whether the innermost container is an item with only its marker so far.
    pub(crate) fn is_bare(&self) -> bool
        ensures { result ≡ self.now.bare }
    {
        self.bare
    }

    /// Sets whether the innermost container is an item with only its marker so far.
    pub(crate) fn set_bare(&mut self, bare: bool)
        ensures bare { self.new.bare ≡ bare }
        ensures frames { self.new.frames ≡ self.old.frames }
        ensures level { self.new.level ≡ self.old.level }
    {
        self.bare = bare;
    }

    /// Adds a blank line to the innermost level.
    pub(crate) fn push_blank(&mut self)
        ensures level { self.new.level ≡ push_blank self.old.level }
        ensures frames { self.new.frames ≡ self.old.frames }
        ensures bare { self.new.bare ≡ self.old.bare }
    {
        self.level.push_blank();
    }

    /// Opens a leaf block in the innermost level.
    #[inline(always)]
    pub(crate) fn open_block(&mut self) -> Result<(), AllocError>
        ensures level { OnOk result (self.new.level ≡ block_opens self.old.level) }
        ensures frames { self.new.frames ≡ self.old.frames }
        ensures bare { self.new.bare ≡ self.old.bare }
    {
        self.level.open_block(&mut self.raw, &mut self.room)?;
        self.finish_chunk()?;
        Ok(())
    }

    /// Whether no container is open, and no list at the top level.
    fn is_closed(&self) -> bool
        ensures frames { result ≡ true → self.now.frames ≡ [] }
        ensures list { result ≡ true → self.now.level.open_list ≡ None }
    {
        self.frames.is_empty() && self.level.open_list.is_none()
    }

    /// Finishes a chunk of the document, if its texts are long enough and no container and no list is open.
    /// All blocks stay the same.
    #[inline(always)]
    fn finish_chunk(&mut self) -> Result<(), AllocError>
        ensures same { OnOk result (self.new ≡ self.old) }
        ensures frames { self.new.frames ≡ self.old.frames }
        ensures bare { self.new.bare ≡ self.old.bare }
    {
        if !self.raw.is_full() || !self.is_closed() {
            return Ok(());
        }
        self.start_chunk()
    }

    /// Starts a new chunk of the document. The last one first gives back the memory that it doesn't use, so
    /// that the new one can start there.
    #[cold]
    fn start_chunk(&mut self) -> Result<(), AllocError>
        requires frames { self.old.frames ≡ [] }
        requires list { self.old.level.open_list ≡ None }
        ensures same { OnOk result (self.new ≡ self.old) }
        ensures frames { self.new.frames ≡ self.old.frames }
        ensures bare { self.new.bare ≡ self.old.bare }
    {
        self.raw.shrink_to_fit();
        self.level.blocks.shrink_to_fit();
        let room = RawBlocks::with_room(self.alloc)?;
        let raw = mem::replace(&mut self.raw, room);
        let blocks = mem::replace(&mut self.level.blocks, Vec::new(self.alloc));
        self.chunks.push(RawChunk::new(blocks, raw))
    }

    /// Adds a leaf block that was opened.
    #[inline(always)]
    pub(crate) fn put(&mut self, leaf: &LeafBlock<'_>) -> Result<(), NoMemory>
        ensures level { OnOk result (self.new.level ≡ block_closes self.old.level (block_of leaf.now)) }
        ensures frames { self.new.frames ≡ self.old.frames }
        ensures bare { self.new.bare ≡ self.old.bare }
    {
        let block = leaf.place(&mut self.raw)?;
        self.level.close_block(block)?;
        Ok(())
    }

    /// The blocks of the document. No container is open.
    pub(crate) fn into_tree(self) -> Result<RawTree, AllocError>
        requires { self.frames ≡ [] }
        ensures { IfOk result (λ blocks. blocks ≡ closed_blocks self.level) }
    {
        let Stack {
            mut chunks,
            level,
            mut raw,
            mut room,
            ..
        } = self;
        let blocks = level.into_blocks(&mut raw, &mut room)?;
        chunks.push(RawChunk::new(blocks, raw))?;
        Ok(chunks)
    }
}
