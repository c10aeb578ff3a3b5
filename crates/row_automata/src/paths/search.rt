//! The search of a path that leads back to its first state.

use crate::conditions::meets;
use crate::paths::bit;
use crate::paths::steps::Step;
use crate::words::Letters;
use aut_base::{Formula, Memory};

/// A bound on the nodes of the search, more than small automata need.
const MOST_NODES: usize = 512;

/// A node of the search: the state of a path, its position in the cycle, the union of its edges' marks so far, and their
/// intersection.
#[derive(Clone, Copy)]
struct Node {
    state: usize,
    place: usize,
    some: u32,
    each: u32,
}

impl Node {
    fn after(self, step: &Step, length: usize) -> Node {
        let place = self.place.saturating_add(1);
        Node {
            state: step.to,
            place: if place < length { place } else { 0 },
            some: self.some | step.sets,
            each: self.each & step.sets,
        }
    }

    fn is(&self, other: &Node) -> bool {
        self.state == other.state
            && self.place == other.place
            && self.some == other.some
            && self.each == other.each
    }
}

/// The nodes that were reached.
#[derive(Clone, Copy)]
pub(crate) struct Nodes {
    list: [Node; MOST_NODES],
    count: usize,
}

impl Nodes {
    pub(crate) fn new() -> Nodes {
        Nodes {
            list: [begin(0); MOST_NODES],
            count: 0,
        }
    }

    /// Adds a node, unless it is there. Refused where there are too many.
    fn add(&mut self, node: Node) -> Result<(), Memory> {
        for (place, other) in self.list.iter().enumerate() {
            if place >= self.count {
                break;
            }
            if other.is(&node) {
                return Ok(());
            }
        }
        match self.list.get_mut(self.count) {
            Some(place) => *place = node,
            None => return Err(Memory),
        }
        self.count = self.count.saturating_add(1);
        Ok(())
    }

    /// The node of this number, in the order in which they were reached.
    fn get(&self, number: usize) -> Option<Node> {
        if number < self.count {
            return self.list.get(number).copied();
        }
        None
    }
}

/// The node of the path that is still empty.
fn begin(home: usize) -> Node {
    Node {
        state: home,
        place: 0,
        some: 0,
        each: u32::MAX,
    }
}

/// What is searched: a path over these edges from a state back to it that reads the cycle one or more times and meets the condition.
#[derive(Clone, Copy)]
pub(crate) struct Search<'a> {
    pub(crate) steps: &'a [Step],
    pub(crate) formula: &'a Formula,
    pub(crate) cycle: Letters,
    /// For each state, the states to which one or more rounds of the cycle lead.
    pub(crate) rounds: &'a [u64],
}

impl<'a> Search<'a> {
    /// The states for which there is such a path.
    pub(crate) fn closing(&self, nodes: &mut Nodes) -> Result<u64, Memory> {
        let mut closing = 0;
        for (home, ends) in self.rounds.iter().enumerate() {
            if *ends & bit(home) != 0 && self.closes(home, nodes)? {
                closing |= bit(home);
            }
        }
        Ok(closing)
    }

    /// Whether there is such a path. After a round it goes on only from states from which some rounds lead back.
    fn closes(&self, home: usize, nodes: &mut Nodes) -> Result<bool, Memory> {
        nodes.count = 0;
        nodes.add(begin(home))?;
        for done in 0..MOST_NODES {
            let Some(node) = nodes.get(done) else {
                return Ok(false);
            };
            if self.follow(home, node, nodes)? {
                return Ok(true);
            }
        }
        Ok(false)
    }

    /// Follows the edges from a node, and answers whether one of them ends such a path. Else new nodes are added.
    fn follow(&self, home: usize, node: Node, nodes: &mut Nodes) -> Result<bool, Memory> {
        let letter = self.cycle.at(node.place);
        for step in self.steps {
            if !step.is_open(bit(node.state), letter) {
                continue;
            }
            let next = node.after(step, self.cycle.len());
            if self.is_end(home, next) {
                return Ok(true);
            }
            if self.goes_on(home, next) {
                nodes.add(next)?;
            }
        }
        Ok(false)
    }

    /// Whether the path is back, and meets the condition: it does exactly where a cycle of two edges with its union and its
    /// intersection as their marks does.
    fn is_end(&self, home: usize, node: Node) -> bool {
        node.place == 0 && node.state == home && meets(self.formula, node.some, node.each)
    }

    fn goes_on(&self, home: usize, node: Node) -> bool {
        node.place > 0 || self.ends(node.state) & bit(home) != 0
    }

    /// The states to which one or more rounds lead from this one.
    fn ends(&self, state: usize) -> u64 {
        self.rounds.get(state).copied().unwrap_or(0)
    }
}
