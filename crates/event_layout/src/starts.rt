//! The nodes that begin at an event.
ghost use Rattle.std.specs.Prelude.{◌≡◌, IfOk, slice_set};
ghost use Rattle.event_layout.specs.Starts.{links_of, number_at, number_of, begun_from, noted, starts_of};

use grammar_machine::Event;
use std::alloc::{AllocError, Global};

/// The nodes by the events that they begin with. The number of a node is that of its event plus 1;
/// 0 stands for none.
#[derive(Drop)]
pub struct Starts {
    /// For each event, the last node that begins with it.
    pub last: Vec<u32>,
    /// For each node's event, the node before it that begins with the same event.
    pub before: Vec<u32>,
    /// The number of nodes so far. No result depends on it, only the capacity of the list of steps.
    pub nodes: usize,
}

fn number_at(numbers: &[u32], i: usize) -> u32
    ensures { result ≡ number_at numbers.now i }
{
    match numbers.get(i) {
        None => 0,
        Some(number) => *number,
    }
}

// An event whose number has more than 32 bits begins no node.
fn number_of(event: usize) -> u32
    ensures { result ≡ number_of event }
{
    if event < 4_294_967_295 {
        event as u32 + 1
    } else {
        0
    }
}

fn note(numbers: &mut Vec<u32>, i: usize, number: u32)
    ensures { numbers.new.items ≡ slice_set numbers.old.items i number }
{
    if i < numbers.len() {
        numbers[i] = number;
    }
}

impl Starts {
    // The node of this event begins with the event `from`, or with its own.
    fn begin(&mut self, event: usize, from: usize)
        ensures { links_of self.new ≡ begun_from from event (links_of self.old) }
    {
        let from = from.min(event);
        let earlier = number_at(&self.last, from);
        note(&mut self.before, event, earlier);
        note(&mut self.last, from, number_of(event));
        self.nodes = self.nodes.wrapping_add(1);
    }

    fn link(&mut self, root: usize, number: usize, event: &Event)
        ensures { links_of self.new ≡ noted root number event.now (links_of self.old) }
    {
        if let Event::Node { kind: _, from } = *event {
            if number != root {
                self.begin(number, from as usize);
            }
        }
    }

    /// The last node that begins with the event.
    pub fn last_at(&self, event: usize) -> u32
        ensures { result ≡ number_at self.now.last.items event }
    {
        number_at(&self.last, event)
    }

    /// The node before this one that begins with the same event.
    pub fn before(&self, event: usize) -> u32
        ensures { result ≡ number_at self.now.before.items event }
    {
        number_at(&self.before, event)
    }
}

/// The starts of all nodes except that of the event `root`.
#[inline(never)]
#[tactic(auto, unfolding(crate::specs::Starts::starts_of))]
pub fn find_starts(alloc: Global, root: usize, events: &[Event]) -> Result<Starts, AllocError>
    ensures { IfOk result (λ s. links_of s ≡ starts_of root events.now) }
{
    // Both lists are full from the start: most events are no nodes, and have nothing to be noted.
    let mut starts = Starts {
        last: vec![in alloc; 0u32; events.len()]?,
        before: vec![in alloc; 0u32; events.len()]?,
        nodes: 0,
    };
    for (number, event) in events.iter().enumerate() {
        starts.link(root, number, event);
    }
    Ok(starts)
}
