//! The machine. It has a stack of calls, one of marks, and one of what sealed calls keep; it has no
//! recursion, and ends whatever the grammar is.
ghost use Rattle.std.specs.Prelude.{◌≡◌, ◌<◌, ◌+◌, ◌^◌, ◌&&◌, not, OnOk, IfOk, length, slice_get, option_map, nat_eq, if◌then◌else◌, Some, None};
ghost use Rattle.grammar_machine.specs.Alone.{stays_of, alone_of, run_as_of};
ghost use Rattle.grammar_machine.specs.Running.{tables_of, stacks_of, state_of, seen_as_of, end_as_of, signs_of_view, signs_taken_of, seen_at_of, here_of, has_of, is_brace_of, hides_of, sees_of, target_of, kind_of, power_of, is_some, operator_view_of, holds_of, goto_of, goto_if_of, level_for_of, enter_of, bind_of, frame_of, pass_of, fresh_of, resume_of, leave_of, left_of, take_of, expect_of, piece_of, leaf_of, return_of, sealed_of, obey_of, begin_of, fuel_of, events_of};

use crate::alone::stays;
use crate::event::{Event, Part};
use crate::grammar::{Grammar, Level, Op, Power, Sight, Test, View};
use crate::made::{Frame, Made, Seal, saturated};
use std::alloc::{AllocError, Global};
use syntax_kind::SyntaxKind;

/// The number of the kind that follows the last token.
const END: u8 = 1;

/// Not the number of an operation: the return address of a rule that was not called.
const STOP: u32 = u32::MAX;

/// So many operations are allowed at the beginning and for each token that is taken. A grammar in
/// which every loop takes a token stays far below.
const STEPS_A_TOKEN: usize = 1200;

/// Where the machine is.
#[derive(Clone, Copy, Debug)]
pub(crate) struct Place {
    /// The next operation.
    next: u32,
    /// The next token.
    at: usize,
    /// How many operations are left.
    credit: usize,
    /// The rule's level.
    level: u8,
    /// The rule's flags.
    flags: u8,
    /// The level of the last operator's right operand.
    operand: u8,
    /// The last answer.
    answer: u8,
}

#[inline(always)]
fn seen_as(view: View, sight: Sight) -> u8
    ensures { result ≡ seen_as_of view sight }
{
    let seen = [sight.one, sight.two, sight.three, sight.word];
    seen[view as usize]
}

#[inline(always)]
fn end_as(view: View) -> u8
    ensures { result ≡ end_as_of view }
{
    match view {
        View::One => END,
        View::Two | View::Three | View::Word => 0,
    }
}

#[inline(always)]
fn signs_of(view: View) -> u8
    ensures { result ≡ signs_of_view view }
{
    match view {
        View::One | View::Word => 1,
        View::Two => 2,
        View::Three => 3,
    }
}

// How many tokens are taken by a view: one, where nothing is seen in it.
#[inline(always)]
fn signs_taken(view: View, sight: Sight) -> u8
    ensures { result ≡ signs_taken_of view sight }
{
    if seen_as(view, sight) == 0 {
        1
    } else {
        signs_of(view)
    }
}

#[inline(always)]
fn sight_at(sights: &[Sight], i: usize) -> Option<Sight>
    ensures { result ≡ slice_get sights.now i }
{
    sights.get(i).copied()
}

// The kind of a token, in the view that rules use most.
#[inline(always)]
fn kind_at(sights: &[Sight], i: usize) -> u8
    ensures { result ≡ seen_at_of sights.now View.One i }
{
    match sight_at(sights, i) {
        None => END,
        Some(sight) => sight.one,
    }
}

#[inline(always)]
fn seen_at(sights: &[Sight], view: View, i: usize) -> u8
    ensures { result ≡ seen_at_of sights.now view i }
{
    match sight_at(sights, i) {
        None => end_as(view),
        Some(sight) => seen_as(view, sight),
    }
}

#[inline(always)]
fn is_operator(power: Option<Power>) -> bool
    ensures { result ≡ is_some power }
{
    match power {
        None => false,
        Some(_) => true,
    }
}

impl Grammar<'_> {
    #[inline(always)]
    fn has(&self, set: u8, kind: u8) -> bool
        ensures { result ≡ has_of (tables_of self.now) set kind }
    {
        match self.sets.get(set as usize * 4 + kind as usize / 64) {
            None => false,
            Some(word) => *word >> (kind as u32 % 64) & 1 != 0,
        }
    }

    #[inline(always)]
    fn target(&self, row: u16, kind: u8) -> u32
        ensures { result ≡ target_of (tables_of self.now) row kind }
    {
        match self.rows.get(row as usize + kind as usize) {
            None => STOP,
            Some(target) => *target as u32,
        }
    }

    #[inline(always)]
    fn kind(&self, kind: u8) -> SyntaxKind
        ensures { result ≡ kind_of (tables_of self.now) kind }
    {
        match self.kinds.get(kind as usize) {
            None => SyntaxKind::ERROR,
            Some(kind) => *kind,
        }
    }

    #[inline(always)]
    fn power(&self, kind: u8) -> Option<Power>
        ensures { result ≡ power_of (tables_of self.now) kind }
    {
        match self.powers.get(kind as usize) {
            None => None,
            Some(power) => *power,
        }
    }

    #[inline(always)]
    fn is_brace(&self, kind: u8) -> bool
        ensures { result ≡ is_brace_of (tables_of self.now) kind }
    {
        kind == self.opening || kind == self.closing
    }

    // Whether one of the next `ahead` tokens is a brace.
    #[inline(always)]
    fn hides(&self, sights: &[Sight], at: usize, ahead: u8) -> bool
        ensures { result ≡ hides_of (tables_of self.now) sights.now at ahead }
    {
        // Nearly all tests look at this token or at the next one.
        if ahead == 0 {
            return false;
        }
        if self.is_brace(kind_at(sights, at)) {
            return true;
        }
        if ahead == 1 {
            return false;
        }
        self.hides_among(sights, at, ahead)
    }

    #[inline(never)]
    fn hides_among(&self, sights: &[Sight], at: usize, ahead: u8) -> bool
        ensures { result ≡ hides_of (tables_of self.now) sights.now at ahead }
    {
        for i in 0..ahead {
            if self.is_brace(kind_at(sights, at.wrapping_add(i as usize))) {
                return true;
            }
        }
        false
    }

    // The view of the longest operator that begins with the token.
    #[inline(always)]
    fn operator_view(&self, sights: &[Sight], at: usize) -> View
        ensures { result ≡ operator_view_of (tables_of self.now) sights.now at }
    {
        if is_operator(self.power(seen_at(sights, View::Three, at))) {
            View::Three
        } else if is_operator(self.power(seen_at(sights, View::Two, at))) {
            View::Two
        } else {
            View::One
        }
    }
}

impl Place {
    fn new(rule: usize) -> Place
        ensures { result ≡ (begin_of rule).place }
    {
        Place {
            next: saturated(rule),
            at: 0,
            credit: STEPS_A_TOKEN,
            level: 0,
            flags: 0,
            operand: 0,
            answer: 0,
        }
    }

    #[inline(always)]
    fn goto(&mut self, target: u16)
        ensures { self.new ≡ goto_of target self.old }
    {
        self.next = target as u32;
    }

    #[inline(always)]
    fn goto_if(&mut self, holds: bool, target: u16)
        ensures { self.new ≡ goto_if_of holds target self.old }
    {
        if holds {
            self.next = target as u32;
        }
    }

    #[inline(always)]
    fn kind(&self, sights: &[Sight]) -> u8
        ensures { result ≡ here_of sights.now self.now }
    {
        kind_at(sights, self.at)
    }

    // What is seen of the token `ahead` tokens ahead: nothing over a brace.
    #[inline(always)]
    fn sees(&self, grammar: &Grammar, sights: &[Sight], view: View, ahead: u8) -> u8
        ensures { result ≡ sees_of (tables_of grammar.now) sights.now view ahead self.now }
    {
        if grammar.hides(sights, self.at, ahead) {
            0
        } else {
            seen_at(sights, view, self.at.wrapping_add(ahead as usize))
        }
    }

    #[inline(always)]
    fn holds(&self, grammar: &Grammar, sights: &[Sight], test: Test) -> bool
        ensures { result ≡ holds_of (tables_of grammar.now) sights.now test self.now }
    {
        match test {
            Test::Sees { view, ahead, kind } => self.sees(grammar, sights, view, ahead) == kind,
            Test::In { ahead, set } => grammar.has(
                set,
                self.sees(grammar, sights, View::One, ahead),
            ),
            Test::WordIn { ahead, set } => {
                grammar.has(set, self.sees(grammar, sights, View::Word, ahead))
            }
            Test::After { kind } => {
                self.at > 0 && kind_at(sights, self.at.wrapping_sub(1)) == kind
            }
            Test::Flag { mask } => self.flags & mask != 0,
            Test::Answered { answer } => self.answer == answer,
        }
    }

    #[inline(always)]
    fn level_for(&self, level: Level) -> u8
        ensures { result ≡ level_for_of level self.now }
    {
        match level {
            Level::Own { level } => level,
            Level::Same => self.level,
            Level::Operand => self.operand,
        }
    }

    #[inline(always)]
    fn enter(&mut self, target: u16, level: Level, keep: u8, add: u8)
        ensures { self.new ≡ enter_of target level keep add self.old }
    {
        self.level = self.level_for(level);
        self.next = target as u32;
        self.flags = self.flags & keep | add;
    }

    #[inline(always)]
    fn bind(&mut self, power: Option<Power>, target: u16)
        ensures { self.new ≡ bind_of power target self.old }
    {
        match power {
            None => self.goto(target),
            Some(power) => {
                if power.level == 0 || power.level < self.level {
                    self.goto(target);
                } else {
                    self.operand = power.right;
                }
            }
        }
    }

    #[inline(always)]
    fn frame(&self, sealed: bool) -> Frame
        ensures { result ≡ frame_of sealed self.now }
    {
        Frame {
            next: self.next,
            level: self.level,
            flags: self.flags,
            sealed,
        }
    }

    // Goes on for as many tokens as were taken.
    #[inline(always)]
    fn pass(&mut self, signs: u8)
        ensures { self.new ≡ pass_of signs self.old }
    {
        self.at = self.at.wrapping_add(signs as usize);
        self.credit = self.credit.saturating_add(STEPS_A_TOKEN);
    }

    // As at the beginning of a text, but for the place.
    #[inline(always)]
    fn begin(&mut self, target: u16)
        ensures { self.new ≡ fresh_of target self.old }
    {
        self.next = target as u32;
        self.credit = STEPS_A_TOKEN;
        self.level = 0;
        self.flags = 0;
        self.operand = 0;
        self.answer = 0;
    }

    // To where a call came from.
    #[inline(always)]
    fn resume(&mut self, frame: Frame)
        ensures { self.new ≡ resume_of frame self.old }
    {
        self.next = frame.next;
        self.level = frame.level;
        self.flags = frame.flags;
    }

    // Behind a sealed call.
    #[inline(always)]
    fn leave(&mut self, seal: Seal)
        ensures { self.new ≡ leave_of seal self.old }
    {
        self.credit = seal.credit.saturating_add(STEPS_A_TOKEN);
        self.operand = 0;
        self.answer = 0;
    }
}

// Makes the node of a sealed call that returned.
fn leave(place: &mut Place, made: &mut Made) -> Result<(), AllocError>
    ensures { OnOk result (state_of place.new made.new ≡ left_of (state_of place.old made.old)) }
{
    match made.pop_seal() {
        None => Ok(()),
        Some(seal) => {
            place.leave(seal);
            made.unseal(seal)
        }
    }
}

#[inline(always)]
fn back(place: &mut Place, made: &mut Made) -> Result<(), AllocError>
    ensures { OnOk result (state_of place.new made.new ≡ return_of (state_of place.old made.old)) }
{
    match made.pop_frame() {
        None => {
            place.next = STOP;
            Ok(())
        }
        Some(frame) => {
            place.resume(frame);
            if frame.sealed {
                leave(place, made)
            } else {
                Ok(())
            }
        }
    }
}

#[inline(always)]
fn take(
    place: &mut Place,
    made: &mut Made,
    grammar: &Grammar,
    sights: &[Sight],
    view: View,
) -> Result<(), AllocError>
    ensures { OnOk result (state_of place.new made.new
        ≡ take_of (tables_of grammar.now) sights.now view (state_of place.old made.old)) }
{
    match sight_at(sights, place.at) {
        None => Ok(()),
        Some(sight) => {
            let signs = signs_taken(view, sight);
            let kind = grammar.kind(seen_as(view, sight));
            made.make(Event::Token { kind, signs })?;
            place.pass(signs);
            Ok(())
        }
    }
}

#[inline(always)]
fn expect(
    place: &mut Place,
    made: &mut Made,
    grammar: &Grammar,
    sights: &[Sight],
    kind: u8,
    message: u16,
) -> Result<(), AllocError>
    ensures { OnOk result (state_of place.new made.new
        ≡ expect_of (tables_of grammar.now) sights.now kind message
        (state_of place.old made.old)) }
{
    if place.kind(sights) == kind {
        take(place, made, grammar, sights, View::One)
    } else {
        made.make(Event::Error { message })
    }
}

#[inline(always)]
fn leaf(
    place: &mut Place,
    made: &mut Made,
    grammar: &Grammar,
    sights: &[Sight],
    kind: SyntaxKind,
) -> Result<(), AllocError>
    ensures { OnOk result (state_of place.new made.new
        ≡ leaf_of (tables_of grammar.now) sights.now kind (state_of place.old made.old)) }
{
    let from = made.start();
    take(place, made, grammar, sights, View::One)?;
    made.make(Event::Node { kind, from })
}

#[inline(always)]
fn piece(
    place: &mut Place,
    made: &mut Made,
    sights: &[Sight],
    part: Part,
    last: bool,
) -> Result<(), AllocError>
    ensures { OnOk result (state_of place.new made.new
        ≡ piece_of sights.now part last (state_of place.old made.old)) }
{
    match sight_at(sights, place.at) {
        None => Ok(()),
        Some(sight) => {
            if sight.word == 0 {
                return Ok(());
            }
            made.make(Event::Piece { part, last })?;
            if last {
                place.pass(1);
            }
            Ok(())
        }
    }
}

fn sealed(
    place: &mut Place,
    made: &mut Made,
    grammar: &Grammar,
    sights: &[Sight],
    target: u16,
    kind: SyntaxKind,
) -> Result<(), AllocError>
    ensures { OnOk result (state_of place.new made.new
        ≡ sealed_of (tables_of grammar.now) sights.now target kind
        (state_of place.old made.old)) }
{
    match sight_at(sights, place.at) {
        None => Ok(()),
        Some(sight) => {
            made.seal(place.frame(true), kind, place.credit)?;
            made.make(Event::Token {
                kind: grammar.kind(sight.one),
                signs: 1,
            })?;
            place.at = place.at.wrapping_add(1);
            place.begin(target);
            Ok(())
        }
    }
}

#[inline(always)]
fn obey(
    place: &mut Place,
    made: &mut Made,
    grammar: &Grammar,
    sights: &[Sight],
    op: &Op,
) -> Result<(), AllocError>
    ensures { OnOk result (state_of place.new made.new
        ≡ obey_of (tables_of grammar.now) sights.now op.now (state_of place.old made.old)) }
{
    match *op {
        Op::IfKind { kind, target } => {
            place.goto_if(place.kind(sights) == kind, target);
            Ok(())
        }
        Op::UnlessKind { kind, target } => {
            place.goto_if(place.kind(sights) != kind, target);
            Ok(())
        }
        Op::IfIn { set, target } => {
            place.goto_if(grammar.has(set, place.kind(sights)), target);
            Ok(())
        }
        Op::UnlessIn { set, target } => {
            place.goto_if(!grammar.has(set, place.kind(sights)), target);
            Ok(())
        }
        Op::If { test, target } => {
            place.goto_if(place.holds(grammar, sights, test), target);
            Ok(())
        }
        Op::Unless { test, target } => {
            place.goto_if(!place.holds(grammar, sights, test), target);
            Ok(())
        }
        Op::Switch { row } => {
            place.next = grammar.target(row, place.kind(sights));
            Ok(())
        }
        Op::Jump { target } => {
            place.goto(target);
            Ok(())
        }
        Op::Take => take(place, made, grammar, sights, View::One),
        Op::TakeAs { view } => take(place, made, grammar, sights, view),
        Op::TakeOperator => {
            let view = grammar.operator_view(sights, place.at);
            take(place, made, grammar, sights, view)
        }
        Op::Expect { kind, message } => expect(place, made, grammar, sights, kind, message),
        Op::Piece { part, last } => piece(place, made, sights, part, last),
        Op::Open => made.open(),
        Op::Drop => {
            made.forget();
            Ok(())
        }
        Op::Wrap { kind } => made.wrap(kind),
        Op::Close { kind } => made.close(kind),
        Op::Leaf { kind } => leaf(place, made, grammar, sights, kind),
        Op::Extend => made.extend(grammar.sealed),
        Op::Error { message } => made.make(Event::Error { message }),
        Op::Call { target } => {
            made.call(place.frame(false))?;
            place.enter(target, Level::Own { level: 0 }, 0, 0);
            Ok(())
        }
        Op::CallWith {
            target,
            level,
            keep,
            add,
        } => {
            made.call(place.frame(false))?;
            place.enter(target, level, keep, add);
            Ok(())
        }
        Op::Enter { target } => {
            made.call(place.frame(false))?;
            place.enter(target, Level::Own { level: 0 }, 0, 0);
            made.open()
        }
        Op::Sealed { target, kind } => sealed(place, made, grammar, sights, target, kind),
        Op::Become {
            target,
            level,
            keep,
            add,
        } => {
            place.enter(target, level, keep, add);
            Ok(())
        }
        Op::Return => back(place, made),
        Op::Leave => {
            made.forget();
            back(place, made)
        }
        Op::Reply { answer } => {
            place.answer = answer;
            back(place, made)
        }
        Op::Answer { answer } => {
            place.answer = answer;
            Ok(())
        }
        Op::Flags { keep, add } => {
            place.flags = place.flags & keep | add;
            Ok(())
        }
        Op::Operator { target } => {
            let view = grammar.operator_view(sights, place.at);
            place.bind(grammar.power(seen_at(sights, view, place.at)), target);
            Ok(())
        }
    }
}

// A capacity for the events. No number of a token near the last one wraps around.
fn room_for(sights: &[Sight]) -> usize
    ensures { length sights.now + 3 < 2 ^ 64 }
{
    let beyond = sights.len() + 3;
    beyond.saturating_mul(3)
}

// The events of a run that stopped, if it stopped right behind the last token, with no call open.
fn at_the_end(place: Place, made: Made, sights: &[Sight]) -> Option<Vec<Event>>
    ensures { option_map (λ v. v.items) result
        ≡ (if nat_eq place.at (length sights.now) && nat_eq (length made.frames.items) 0
        then Some made.events.items else None) }
{
    if place.at == sights.len() && made.frames.len() == 0 {
        Some(made.events)
    } else {
        None
    }
}

// The same of a run that is to be alone, and the events of any other one.
fn ended(place: Place, made: Made, sights: &[Sight], is_alone: bool) -> Option<Vec<Event>>
    ensures { option_map (λ v. v.items) result
        ≡ (if is_alone
        then (if nat_eq place.at (length sights.now) && nat_eq (length made.frames.items) 0
        then Some made.events.items else None)
        else Some made.events.items) }
{
    if is_alone {
        at_the_end(place, made, sights)
    } else {
        Some(made.events)
    }
}

// Whether a run that is to be alone comes to an operation that looks at other tokens.
fn strays(op: &Op, at: usize, sights: &[Sight], is_alone: bool) -> bool
    ensures { result ≡ (is_alone && not (stays_of op.now at (length sights.now))) }
{
    is_alone && !stays(op, at, sights)
}

// The events of a run; of one that is to be alone, `None` if it is not. One loop is in both runs'
// place, since the compiler puts the operations into a loop only if that is the only one.
#[inline(never)]
fn run_as(
    alloc: Global,
    grammar: &Grammar,
    rule: usize,
    sights: &[Sight],
    is_alone: bool,
) -> Result<Option<Vec<Event>>, AllocError>
    ensures { IfOk result (λ events. option_map (λ v. v.items) events
        ≡ run_as_of is_alone (tables_of grammar.now) rule sights.now) }
{
    let mut place = Place::new(rule);
    let mut made = Made::new(alloc, room_for(sights))?;
    while place.credit > 0 {
        match grammar.ops.get(place.next as usize) {
            None => return Ok(ended(place, made, sights, is_alone)),
            Some(op) => {
                if strays(op, place.at, sights, is_alone) {
                    return Ok(None);
                }
                place.credit -= 1;
                place.next = place.next.wrapping_add(1);
                obey(&mut place, &mut made, grammar, sights, op)?;
            }
        }
    }
    if !is_alone {
        return Ok(Some(made.events));
    }
    match grammar.ops.get(place.next as usize) {
        None => Ok(ended(place, made, sights, is_alone)),
        Some(_) => Ok(None),
    }
}

/// Runs a rule over the tokens of a text that are not trivia. Returns the events, from which a tree
/// can be laid out.
///
/// `rule` is the number of the rule's first operation. The machine stops when the rule returns, and
/// at a number that is not that of an operation. A grammar that loops is stopped: it has 1,200
/// operations at the beginning, 1,200 more for each token that is taken, and a sealed call has its
/// own ones; the events are then those that were made so far. So any grammar can be run over any
/// tokens, in time and memory linear in the tokens, with no recursion. The only error is out of
/// memory.
pub fn run(
    alloc: Global,
    grammar: &Grammar,
    rule: usize,
    sights: &[Sight],
) -> Result<Vec<Event>, AllocError>
    ensures { IfOk result
        (λ events. events.items ≡ events_of (tables_of grammar.now) rule sights.now) }
{
    match run_as(alloc, grammar, rule, sights, false)? {
        Some(events) => Ok(events),
        None => unreachable!(),
    }
}

/// Runs a rule over the tokens of a piece of a text. Returns the events of [`run`] if the rule
/// returns right behind the last token and no operation looked at what stands before the first
/// token or behind the last; otherwise `None`.
///
/// So what was made of the piece does not depend on the text around it. The only error is out of
/// memory.
pub fn run_alone(
    alloc: Global,
    grammar: &Grammar,
    rule: usize,
    sights: &[Sight],
) -> Result<Option<Vec<Event>>, AllocError>
    ensures { IfOk result (λ events. option_map (λ v. v.items) events
        ≡ alone_of (tables_of grammar.now) rule sights.now) }
{
    run_as(alloc, grammar, rule, sights, true)
}
