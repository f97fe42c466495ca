//! The walk over the events.
ghost use Rattle.std.specs.Prelude.{false, position, nat_eq, ◌≡◌, ◌-◌, ◌≤◌, ◌<◌, ◌^◌, [], OnOk, IfOk, All, length, slice_get};
ghost use Rattle.ras_front_end.specs.Reading.{front_step, front_steps};
ghost use Rattle.token_layout.specs.Laid.{IsCut, Laid};
ghost use Rattle.event_layout.specs.Walk.{Moved, IsLaid, IsLaidAnywhere};
ghost use Rattle.event_layout.specs.Layout.{laying_of, given_of, given, kind_of_part, len_of_part, dot_of, cut_at, is_node_of, is_node_at, leaf_of, pass_of, pass_all_of, pass_trivia_of, join_of, joined_len, piece_of, enter_of, exit_of, exit_all_of, begin_with, begin_of, begin_at_of, fault_of, obey_of, advance_of, IsOver, finish_of, root_of, outermost_of, moves, moves_of, start_of, laid_with, laid_of};
ghost use Rattle.event_layout.specs.Trivia.{outside_of};
ghost use Rattle.event_layout.specs.Made.{without_trivia, only_tokens, made_of};

use crate::starts::{Starts, find_starts};
use crate::trivia::{behind, first, is_blank, later, lead, outside, part};
use grammar_machine::{Event, Part};
use ras_front_end::{Step, StepSink};
use std::alloc::{AllocError, Global};
use syntax_kind::SyntaxKind;
use text_size::TextSize;
use token_layout::Token;

/// An error of a parser.
#[derive(Clone, Copy, Debug, PartialEq, Eq)]
pub struct ParserError {
    /// The number of its message.
    pub message: u16,
    /// Its position in the text, in bytes.
    pub position: TextSize,
    /// The number of the lexer's tokens after it, counting white space and comments.
    pub left: usize,
}

/// A tree, as steps, and the parser's errors.
#[derive(Drop)]
pub struct LaidOut {
    /// The steps of one node over the whole text.
    pub steps: Vec<Step>,
    /// The errors, in order.
    pub faults: Vec<ParserError>,
}

/// A sink that took the steps of a tree, and the parser's errors.
#[derive(Drop)]
pub struct HandedOut<S> {
    /// The sink.
    pub sink: S,
    /// The errors, in order.
    pub faults: Vec<ParserError>,
}

// What stays the same.
#[derive(Drop)]
struct Plan<'a> {
    bytes: &'a [u8],
    events: &'a [Event],
    attaching: &'a [SyntaxKind],
    // the event of the root's node
    root: usize,
    starts: Starts,
}

#[derive(Drop)]
struct Layout<'a, S> {
    // the number of the next event
    next: usize,
    // the node that is entered before it, as in `Starts`
    entering: u32,
    // the tokens that are left, and how many bytes of the first of them are in the tree already
    rest: &'a [Token],
    cut: TextSize,
    // how many bytes are in the tree already
    position: TextSize,
    // how many nodes are open in the root
    depth: usize,
    // what took the steps
    sink: S,
    faults: Vec<ParserError>,
}

fn event_at(events: &[Event], i: usize) -> Option<Event>
    ensures { result ≡ slice_get events.now i }
{
    events.get(i).copied()
}

fn less(len: TextSize, cut: TextSize) -> TextSize
    ensures { result ≡ len - cut }
{
    TextSize::new(len.raw().saturating_sub(cut.raw()))
}

fn kind_of(part: Part) -> SyntaxKind
    ensures { result ≡ kind_of_part part }
{
    match part {
        Part::Whole => SyntaxKind::INT_NUMBER,
        Part::Dot => SyntaxKind::DOT,
        Part::Fraction => SyntaxKind::INT_NUMBER,
    }
}

fn dot_in(text: &[u8]) -> Option<usize>
    ensures { result ≡ position (λ b. nat_eq b 46) text.now }
{
    text.iter().position(|byte| *byte == b'.')
}

// Where the dot of a number is. No other token is cut.
fn dot_of(kind: SyntaxKind, text: &[u8]) -> Option<usize>
    ensures { result ≡ dot_of kind text.now }
{
    match kind {
        SyntaxKind::FLOAT_NUMBER => dot_in(text),
        _ => None,
    }
}

// The length in bytes of a part of a number with `dot` bytes before its dot.
fn len_of(part: Part, dot: usize) -> TextSize
    ensures { result ≡ len_of_part part dot }
{
    let dot = TextSize::new(u32::try_from(dot).unwrap_or(u32::MAX));
    match part {
        Part::Whole => dot,
        Part::Dot => later(dot, TextSize::new(1)),
        Part::Fraction => TextSize::new(0),
    }
}

fn is_node(event: Event) -> bool
    ensures { result ≡ is_node_of event }
{
    matches!(event, Event::Node { .. })
}

// The length in bytes of a token whose first part has `first` bytes and whose other parts are these
// tokens.
#[tactic(auto, unfolding(crate::specs::Layout::joined_len))]
fn joined_len(first: TextSize, tokens: &[Token]) -> TextSize
    ensures { result ≡ joined_len first tokens.now }
{
    let mut len = first;
    for token in tokens {
        len = later(len, token.len);
    }
    len
}

fn is_node_at(events: &[Event], i: usize) -> bool
    ensures { result ≡ is_node_at (slice_get events.now i) }
{
    match event_at(events, i) {
        None => false,
        Some(event) => is_node(event),
    }
}

impl<'a> Plan<'a> {
    fn new(
        alloc: Global,
        attaching: &'a [SyntaxKind],
        bytes: &'a [u8],
        events: &'a [Event],
    ) -> Result<Plan<'a>, AllocError>
        ensures { IfOk result (λ p. given_of p ≡ given attaching.now bytes.now events.now) }
    {
        let root = root_of(events);
        let starts = find_starts(alloc, root, events)?;
        Ok(Plan {
            bytes,
            events,
            attaching,
            root,
            starts,
        })
    }
}

impl<'a, S: StepSink + Drop> Layout<'a, S> {
    fn new(
        alloc: Global,
        root: SyntaxKind,
        plan: &Plan,
        tokens: &'a [Token],
    ) -> Result<Layout<'a, S>, AllocError>
        ensures { IfOk result
            (λ l. IsLaid S.took l (start_of root (given_of plan.now) tokens.now)) }
    {
        let elements = plan
            .starts
            .nodes
            .saturating_add(1)
            .saturating_add(tokens.len());
        let mut sink = S::with_room(alloc, elements)?;
        sink.start_node(root)?;
        Ok(Layout {
            next: 0,
            entering: plan.starts.last_at(0),
            rest: tokens,
            cut: TextSize::new(0),
            position: TextSize::new(0),
            depth: 0,
            sink,
            faults: Vec::new(alloc),
        })
    }

    fn leaf(&mut self, kind: SyntaxKind, len: TextSize) -> Result<(), AllocError>
        ensures { OnOk result (Moved S.took self.old self.new (leaf_of kind len)) }
    {
        self.sink.token(kind, len)?;
        self.position = later(self.position, len);
        Ok(())
    }

    // One token of the lexer's.
    fn pass(&mut self) -> Result<(), AllocError>
        ensures { OnOk result (Moved S.took self.old self.new pass_of) }
    {
        match self.rest {
            [] => Ok(()),
            [token, rest @ ..] => {
                let len = less(token.len, self.cut);
                let kind = token.kind;
                self.rest = rest;
                self.cut = TextSize::new(0);
                self.leaf(kind, len)
            }
        }
    }

    #[inline(never)]
    fn pass_all(&mut self, count: usize) -> Result<(), AllocError>
        ensures { OnOk result (Moved S.took self.old self.new (pass_all_of count)) }
    {
        for _i in 0..count {
            self.pass()?;
        }
        Ok(())
    }

    // Most tokens have none before them.
    #[inline(always)]
    fn pass_trivia(&mut self) -> Result<(), AllocError>
        ensures { OnOk result (Moved S.took self.old self.new pass_trivia_of) }
    {
        let count = lead(self.rest);
        if count > 0 {
            self.pass_all(count)
        } else {
            Ok(())
        }
    }

    // A token that is made of the next token of the lexer and `more` after it.
    #[inline(always)]
    fn join(&mut self, kind: SyntaxKind, more: u8) -> Result<(), AllocError>
        ensures { OnOk result (Moved S.took self.old self.new (join_of kind more)) }
    {
        match self.rest {
            [] => Ok(()),
            [token, rest @ ..] => {
                let more = more as usize;
                let len = joined_len(less(token.len, self.cut), first(rest, more));
                self.rest = behind(rest, more);
                self.cut = TextSize::new(0);
                self.leaf(kind, len)
            }
        }
    }

    // The rest of the token.
    fn last_piece(&mut self, part: Part) -> Result<(), AllocError>
        ensures { OnOk result
            (Moved S.took self.old self.new (join_of (kind_of_part part) 0)) }
    {
        self.join(kind_of(part), 0)
    }

    fn cut_at(&mut self, piece: Part, dot: Option<usize>) -> Result<(), AllocError>
        ensures { OnOk result (Moved S.took self.old self.new (cut_at piece dot)) }
    {
        match dot {
            None => Ok(()),
            Some(dot) => {
                let len = len_of(piece, dot);
                self.cut = later(self.cut, len);
                self.leaf(kind_of(piece), len)
            }
        }
    }

    // The digits before the dot, or the dot.
    #[inline(never)]
    fn piece(&mut self, bytes: &[u8], piece: Part) -> Result<(), AllocError>
        ensures { OnOk result (Moved S.took self.old self.new (piece_of bytes.now piece)) }
    {
        match self.rest {
            [] => Ok(()),
            [token, ..] => {
                let text = part(bytes, self.position, less(token.len, self.cut));
                self.cut_at(piece, dot_of(token.kind, text))
            }
        }
    }

    fn enter(&mut self, kind: SyntaxKind) -> Result<(), AllocError>
        ensures { OnOk result (Moved S.took self.old self.new (enter_of kind)) }
    {
        if self.depth < usize::MAX {
            self.depth += 1;
            self.sink.start_node(kind)
        } else {
            Ok(())
        }
    }

    fn exit(&mut self) -> Result<(), AllocError>
        ensures { OnOk result (Moved S.took self.old self.new exit_of) }
    {
        if self.depth > 0 {
            self.depth -= 1;
            self.sink.finish_node()
        } else {
            Ok(())
        }
    }

    fn exit_all(&mut self, count: usize) -> Result<(), AllocError>
        ensures { OnOk result (Moved S.took self.old self.new (exit_all_of count)) }
    {
        for _i in 0..count {
            self.exit()?;
        }
        Ok(())
    }

    // A node before which there are `count` trivia.
    #[inline(never)]
    #[tactic(auto, using(crate::proofs::Moves::pass_all_none))]
    fn begin_behind(
        &mut self,
        plan: &Plan,
        kind: SyntaxKind,
        count: usize,
    ) -> Result<(), AllocError>
        ensures { OnOk result (Moved S.took self.old self.new (begin_with kind count
            (outside_of plan.now.bytes.now plan.now.attaching.now kind self.old.position
            self.old.rest.now count))) }
    {
        let outside = outside(
            plan.bytes,
            plan.attaching,
            kind,
            self.position,
            self.rest,
            count,
        );
        self.pass_all(outside)?;
        self.enter(kind)?;
        if outside < count {
            self.pass_all(count - outside)
        } else {
            Ok(())
        }
    }

    // Most nodes have none before them, or white space alone, which stays outside.
    #[inline(always)]
    #[tactic(auto, using(crate::proofs::Moves::pass_all_none))]
    fn begin(&mut self, plan: &Plan, kind: SyntaxKind) -> Result<(), AllocError>
        ensures { OnOk result
            (Moved S.took self.old self.new (begin_of (given_of plan.now) kind)) }
    {
        let count = lead(self.rest);
        if count == 0 {
            self.enter(kind)
        } else if count == 1 && is_blank(self.rest) {
            self.pass()?;
            self.enter(kind)
        } else {
            self.begin_behind(plan, kind, count)
        }
    }

    fn begin_at(&mut self, plan: &Plan, event: Option<Event>) -> Result<(), AllocError>
        ensures { OnOk result
            (Moved S.took self.old self.new (begin_at_of (given_of plan.now) event)) }
    {
        match event {
            Some(Event::Node { kind, from: _ }) => self.begin(plan, kind),
            _ => Ok(()),
        }
    }

    #[inline(never)]
    fn fault(&mut self, message: u16) -> Result<(), AllocError>
        ensures { OnOk result (Moved S.took self.old self.new (fault_of message)) }
    {
        self.faults.push(ParserError {
            message,
            position: self.position,
            left: self.rest.len(),
        })?;
        Ok(())
    }

    fn obey(&mut self, plan: &Plan, event: Event, number: usize) -> Result<(), AllocError>
        ensures { OnOk result
            (Moved S.took self.old self.new (obey_of (given_of plan.now) event number)) }
    {
        match event {
            Event::Token { kind, signs } => {
                self.pass_trivia()?;
                self.join(kind, signs.saturating_sub(1))
            }
            Event::Piece { part, last } => {
                self.pass_trivia()?;
                if last {
                    self.last_piece(part)
                } else {
                    self.piece(plan.bytes, part)
                }
            }
            Event::Node { kind: _, from: _ } => if number == plan.root {
                Ok(())
            } else {
                self.exit()
            },
            Event::Error { message } => self.fault(message),
        }
    }

    // One move. Returns whether there is more to do.
    #[tactic(auto, unfolding(crate::specs::Layout::advance_of), using(crate::proofs::Idle::none_left))]
    fn advance(&mut self, plan: &Plan) -> Result<bool, AllocError>
        ensures moved { OnOk result
            (Moved S.took self.old self.new (advance_of (given_of plan.now))) }
        ensures over { IfOk result
            (λ more. more ≡ false → IsOver (given_of plan.now) (laying_of self.new [])) }
    {
        if self.entering > 0 {
            let number = self.entering as usize - 1;
            self.entering = plan.starts.before(number);
            self.begin_at(plan, event_at(plan.events, number))?;
            return Ok(true);
        }
        let number = self.next;
        match event_at(plan.events, number) {
            None => {
                self.next = number.saturating_add(1);
                self.entering = plan.starts.last_at(self.next);
                Ok(self.entering > 0 || number < plan.starts.last.len())
            }
            Some(event) => {
                self.next = number + 1;
                self.entering = plan.starts.last_at(number + 1);
                self.obey(plan, event, number)?;
                Ok(true)
            }
        }
    }

    // What is left after the last event.
    fn finish(&mut self) -> Result<(), AllocError>
        ensures { OnOk result (Moved S.took self.old self.new finish_of) }
    {
        let count = self.rest.len();
        self.pass_all(count)?;
        let open = self.depth;
        self.exit_all(open)?;
        self.sink.finish_node()
    }
}

#[inline(never)]
fn walked<'a, S: StepSink + Drop>(
    alloc: Global,
    root: SyntaxKind,
    plan: &Plan,
    tokens: &'a [Token],
) -> Result<Layout<'a, S>, AllocError>
    ensures { IfOk result (λ l. IsLaidAnywhere S.took l
        (moves (moves_of (length plan.now.events.now)) (given_of plan.now)
        (start_of root (given_of plan.now) tokens.now))) }
{
    let mut layout = Layout::new(alloc, root, plan, tokens)?;
    let moves = plan.events.len().saturating_mul(2);
    for _i in 0..moves {
        if !layout.advance(plan)? {
            return Ok(layout);
        }
    }
    Ok(layout)
}

fn walk<S: StepSink + Drop>(
    alloc: Global,
    root: SyntaxKind,
    plan: &Plan,
    tokens: &[Token],
) -> Result<HandedOut<S>, AllocError>
    ensures steps { IfOk result
        (λ h. S.took h.sink (laid_with root (given_of plan.now) tokens.now).steps) }
    ensures faults { IfOk result
        (λ h. h.faults.items ≡ (laid_with root (given_of plan.now) tokens.now).faults) }
{
    let mut layout = walked::<S>(alloc, root, plan, tokens)?;
    layout.finish()?;
    let Layout { sink, faults, .. } = layout;
    Ok(HandedOut { sink, faults })
}

// The number of the last event that is a node: the outermost node, if the parser ends with it.
fn root_of(events: &[Event]) -> usize
    ensures { result ≡ root_of events.now }
{
    let mut left = events.len();
    while left > 0 {
        if is_node_at(events, left - 1) {
            return left - 1;
        }
        left -= 1;
    }
    events.len()
}

/// The kind of the node that ends last. This is the outermost node if the parser puts one node over
/// everything.
pub fn outermost(events: &[Event]) -> Option<SyntaxKind>
    ensures { result ≡ outermost_of events.now }
{
    match event_at(events, root_of(events)) {
        Some(Event::Node { kind, from: _ }) => Some(kind),
        _ => None,
    }
}

/// Makes the steps that [`lay_out`] makes, and gives them to a sink as it makes them, in place of a
/// list.
pub fn lay_out_into<S: StepSink + Drop>(
    alloc: Global,
    root: SyntaxKind,
    attaching: &[SyntaxKind],
    text: &str,
    tokens: &[Token],
    events: &[Event],
) -> Result<HandedOut<S>, AllocError>
    ensures steps { IfOk result (λ h. S.took h.sink
        (laid_of root attaching.now text.now tokens.now events.now).steps) }
    ensures faults { IfOk result
        (λ h. h.faults.items ≡ (laid_of root attaching.now text.now tokens.now events.now).faults) }
{
    let plan = Plan::new(alloc, attaching, text.as_bytes(), events)?;
    let handed = walk(alloc, root, &plan, tokens)?;
    Ok(handed)
}

/// The steps of one node of the kind `root` over all tokens, and in it of the nodes of the events.
///
/// The node that ends last becomes the root, with the kind `root` in place of its own. White space
/// and comments are put in as late as possible: before the next token, or before the next node, in
/// the node around it. A node of one of the kinds `attaching` takes the comments before it, from
/// the last blank line on, and the white space after them.
///
/// If nodes do not nest, or if the events take more or fewer tokens than there are, the steps still
/// build one tree over the whole text. It takes time and memory linear in the tokens and events, if
/// `attaching` has few kinds.
pub fn lay_out(
    alloc: Global,
    root: SyntaxKind,
    attaching: &[SyntaxKind],
    text: &str,
    tokens: &[Token],
    events: &[Event],
) -> Result<LaidOut, AllocError>
    ensures steps { IfOk result (λ l. front_steps l.steps.items
        ≡ (laid_of root attaching.now text.now tokens.now events.now).steps) }
    ensures faults { IfOk result
        (λ l. l.faults.items ≡ (laid_of root attaching.now text.now tokens.now events.now).faults) }
    // white space and comments aside, the nodes and tokens are those of the events, in order
    ensures of_events { IfOk result (λ l.
        length text.now < 2 ^ 32 → IsCut tokens.now text.now → length events.now < 2 ^ 32 →
        without_trivia (front_steps l.steps.items)
        ≡ without_trivia (made_of root tokens.now text.now events.now)) }
    // all tokens are the lexer's, in order, but for those that events join or part
    ensures all_tokens { IfOk result (λ l.
        length text.now < 2 ^ 32 → IsCut tokens.now text.now → length events.now < 2 ^ 32 →
        only_tokens (front_steps l.steps.items)
        ≡ only_tokens (made_of root tokens.now text.now events.now)) }
    ensures one_tree { IfOk result (λ l. length text.now < 2 ^ 32 → IsCut tokens.now text.now
        → Laid root text.now (front_steps l.steps.items)) }
    ensures in_text { IfOk result (λ l. length text.now < 2 ^ 32 → IsCut tokens.now text.now
        → All (λ f. f.position ≤ length text.now) l.faults.items) }
{
    let HandedOut { sink, faults } = lay_out_into::<Vec<Step>>(
        alloc, root, attaching, text, tokens, events,
    )?;
    Ok(LaidOut {
        steps: sink,
        faults,
    })
}
