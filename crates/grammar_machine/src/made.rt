//! What the machine makes, and what is open.
ghost use Rattle.std.specs.Prelude.{◌≡◌, min, if◌then◌else◌, OnOk, IfOk};
ghost use Rattle.grammar_machine.specs.Running.{stacks_of, saturated_of, first_of, make_of, start_of, open_of, mark_of, forget_of, wrap_of, close_of, is_among, longer_of, extend_of, call_of, returned_of, seal_of, opened_of, unseal_of, nothing_of};

use crate::event::Event;
use std::alloc::{AllocError, Global};
use syntax_kind::SyntaxKind;

/// Where a call returns to, with the caller's level and flags.
#[derive(Clone, Copy, Debug)]
pub(crate) struct Frame {
    pub next: u32,
    pub level: u8,
    pub flags: u8,
    /// Whether the call was a sealed one.
    pub sealed: bool,
}

/// What a sealed call keeps until it returns: its node, and what it hides.
#[derive(Clone, Copy, Debug)]
pub(crate) struct Seal {
    pub kind: SyntaxKind,
    /// The number of the node's first event.
    pub from: u32,
    pub floor: usize,
    pub credit: usize,
}

/// The output so far, and the open nodes and calls.
#[derive(Debug, Drop)]
pub(crate) struct Made {
    /// The events.
    pub events: Vec<Event>,
    /// Where the nodes that are open start: the number of their first event.
    pub marks: Vec<u32>,
    /// How many of these marks the last sealed call hides.
    pub floor: usize,
    /// The calls that are open.
    pub frames: Vec<Frame>,
    /// Those of them that are sealed.
    pub seals: Vec<Seal>,
}

fn is_among(kinds: &[SyntaxKind], kind: SyntaxKind) -> bool
    ensures { result ≡ is_among kinds.now kind }
{
    kinds.iter().any(|other| other.to_raw() == kind.to_raw())
}

// Where a node begins that is to begin at the mark, if that is earlier. It is asked for its kind
// only then.
fn earlier(sealed: &[SyntaxKind], kind: SyntaxKind, from: u32, mark: u32) -> u32
    ensures { result ≡ (if is_among sealed.now kind then from else min from mark) }
{
    if mark < from && !is_among(sealed, kind) {
        mark
    } else {
        from
    }
}

// The event, if it is a node, from the mark on.
fn longer(sealed: &[SyntaxKind], event: Event, mark: Option<u32>) -> Event
    ensures { result ≡ longer_of sealed.now mark event }
{
    match mark {
        None => event,
        Some(mark) => match event {
            Event::Node { kind, from } => Event::Node {
                kind,
                from: earlier(sealed, kind, from, mark),
            },
            _ => event,
        },
    }
}

pub(crate) fn saturated(n: usize) -> u32
    ensures { result ≡ saturated_of n }
{
    if n < u32::MAX as usize {
        n as u32
    } else {
        u32::MAX
    }
}

impl Made {
    // Empty, with capacity for some events.
    pub(crate) fn new(alloc: Global, room: usize) -> Result<Made, AllocError>
        ensures { IfOk result (λ made. stacks_of made ≡ nothing_of) }
    {
        let events = Vec::with_capacity(alloc, room)?;
        Ok(Made {
            events,
            marks: Vec::new(alloc),
            floor: 0,
            frames: Vec::new(alloc),
            seals: Vec::new(alloc),
        })
    }

    #[inline(always)]
    pub(crate) fn make(&mut self, event: Event) -> Result<(), AllocError>
        ensures { OnOk result (stacks_of self.new ≡ make_of event (stacks_of self.old)) }
    {
        self.events.push(event)?;
        Ok(())
    }

    #[inline(always)]
    pub(crate) fn start(&self) -> u32
        ensures { result ≡ start_of (stacks_of self.now) }
    {
        saturated(self.events.len())
    }

    #[inline(always)]
    pub(crate) fn mark(&self) -> Option<u32>
        ensures { result ≡ mark_of (stacks_of self.now) }
    {
        if self.marks.len() > self.floor {
            self.marks.last().copied()
        } else {
            None
        }
    }

    #[inline(always)]
    pub(crate) fn pop_mark(&mut self) -> Option<u32>
        ensures mark { result ≡ mark_of (stacks_of self.old) }
        ensures made { stacks_of self.new ≡ forget_of (stacks_of self.old) }
    {
        if self.marks.len() > self.floor {
            self.marks.pop()
        } else {
            None
        }
    }

    #[inline(always)]
    pub(crate) fn open(&mut self) -> Result<(), AllocError>
        ensures { OnOk result (stacks_of self.new ≡ open_of (stacks_of self.old)) }
    {
        let start = self.start();
        self.marks.push(start)?;
        Ok(())
    }

    #[inline(always)]
    pub(crate) fn close(&mut self, kind: SyntaxKind) -> Result<(), AllocError>
        ensures { OnOk result (stacks_of self.new ≡ close_of kind (stacks_of self.old)) }
    {
        match self.pop_mark() {
            None => Ok(()),
            Some(from) => self.make(Event::Node { kind, from }),
        }
    }

    #[inline(always)]
    pub(crate) fn wrap(&mut self, kind: SyntaxKind) -> Result<(), AllocError>
        ensures { OnOk result (stacks_of self.new ≡ wrap_of kind (stacks_of self.old)) }
    {
        match self.mark() {
            None => Ok(()),
            Some(from) => self.make(Event::Node { kind, from }),
        }
    }

    #[inline(always)]
    pub(crate) fn forget(&mut self)
        ensures { stacks_of self.new ≡ forget_of (stacks_of self.old) }
    {
        let _ = self.pop_mark();
    }

    pub(crate) fn extend(&mut self, sealed: &[SyntaxKind]) -> Result<(), AllocError>
        ensures { OnOk result (stacks_of self.new ≡ extend_of sealed.now (stacks_of self.old)) }
    {
        match self.events.pop() {
            None => Ok(()),
            Some(event) => {
                let event = longer(sealed, event, self.mark());
                self.make(event)
            }
        }
    }

    #[inline(always)]
    pub(crate) fn call(&mut self, frame: Frame) -> Result<(), AllocError>
        ensures { OnOk result (stacks_of self.new ≡ call_of frame (stacks_of self.old)) }
    {
        self.frames.push(frame)?;
        Ok(())
    }

    #[inline(always)]
    pub(crate) fn pop_frame(&mut self) -> Option<Frame>
        ensures frame { result ≡ first_of (stacks_of self.old).frames }
        ensures made { stacks_of self.new ≡ returned_of (stacks_of self.old) }
    {
        self.frames.pop()
    }

    pub(crate) fn seal(
        &mut self,
        frame: Frame,
        kind: SyntaxKind,
        credit: usize,
    ) -> Result<(), AllocError>
        ensures { OnOk result
            (stacks_of self.new ≡ seal_of frame kind credit (stacks_of self.old)) }
    {
        let from = self.start();
        self.frames.push(frame)?;
        self.seals.push(Seal {
            kind,
            from,
            floor: self.floor,
            credit,
        })?;
        self.floor = self.marks.len();
        Ok(())
    }

    #[inline(always)]
    pub(crate) fn pop_seal(&mut self) -> Option<Seal>
        ensures seal { result ≡ first_of (stacks_of self.old).seals }
        ensures made { stacks_of self.new ≡ opened_of (stacks_of self.old) }
    {
        self.seals.pop()
    }

    pub(crate) fn unseal(&mut self, seal: Seal) -> Result<(), AllocError>
        ensures { OnOk result (stacks_of self.new ≡ unseal_of seal (stacks_of self.old)) }
    {
        self.marks.truncate(self.floor);
        self.floor = seal.floor;
        self.make(Event::Node {
            kind: seal.kind,
            from: seal.from,
        })
    }
}
