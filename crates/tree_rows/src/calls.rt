//! The calls of rows, by their names.

use crate::automata::{add, add_chain};
use crate::long_walk::long_walk;
use aut_base::Numbers;
use row_files::{Answer, Answers, Fault, kind_and_rest, number, numbers, range};
use safra_trees::{Event, Moves, SafraTree, TreeFault, start, step};
use std::alloc::Global;

/// Answers with the trees that are reached.
#[derive(Clone, Copy)]
pub(crate) struct Trees;

impl Answers for Trees {
    fn add_answer(
        &self,
        rt: &HostRuntime,
        answer: &mut Answer,
        call: &str,
        lines: &str,
    ) -> Result<(), Fault> {
        let alloc = rt.alloc();
        let mut walk = Walk {
            trees: Vec::new(alloc),
            moves: Moves::new(alloc),
            answer: Answer::new(alloc),
        };
        walk.call(alloc, call, lines)?;
        answer.add_all(&walk.answer);
        Ok(())
    }
}

/// The trees that were reached, the moves of a letter, and the answer as far as it is known.
#[derive(Drop)]
struct Walk {
    trees: Vec<SafraTree>,
    moves: Moves,
    answer: Answer,
}

impl Walk {
    fn call(&mut self, alloc: Global, call: &str, lines: &str) -> Result<(), Fault> {
        match call {
            "walk" => self.walk(alloc, lines),
            "chain" => self.chain(alloc, lines, false),
            "chain_and_back" => self.chain(alloc, lines, true),
            "steps" => self.long(alloc, lines),
            _ => Err(Fault::UnknownKind),
        }
    }

    /// The number of nodes of the first tree, and for each step, after a comma: the number of nodes, the least red and green
    /// names, and the first earlier tree that equals the new one. The first line has the starts, or `-`, and each further line
    /// the moves of a letter.
    fn walk(&mut self, alloc: Global, lines: &str) -> Result<(), Fault> {
        let (first, letters) = lines.split_once('\n').unwrap_or((lines, ""));
        self.begin(alloc, first)?;
        self.tell_nodes();
        for line in letters.lines() {
            self.answer.add(b", ");
            self.read_moves(line)?;
            if self.take(alloc)? {
                self.tell_earlier();
            }
        }
        Ok(())
    }

    /// Adds the first tree, of these starts, or of none for `-`.
    fn begin(&mut self, alloc: Global, line: &str) -> Result<(), Fault> {
        let starts = if line == "-" {
            Numbers::new(alloc)
        } else {
            numbers(alloc, line)?
        };
        self.trees.push(start(alloc, &starts)?)?;
        Ok(())
    }

    /// Reads the moves of a line, separated by spaces; or `-`.
    fn read_moves(&mut self, line: &str) -> Result<(), Fault> {
        self.moves.clear();
        for word in line.split(' ') {
            if word != "-" {
                self.read_move(word)?;
            }
        }
        Ok(())
    }

    /// Reads a move: `FROM>TO`, or `FROM*TO` for an accepting one.
    fn read_move(&mut self, word: &str) -> Result<(), Fault> {
        let accepting = word.contains('*');
        let sign = if accepting { '*' } else { '>' };
        let Some((from, to)) = word.split_once(sign) else {
            return Err(Fault::Missing);
        };
        add(&mut self.moves, number(from)?, number(to)?, accepting)?;
        Ok(())
    }

    /// Takes a step, tells what it answered, and answers whether there is a new tree.
    fn take(&mut self, alloc: Global) -> Result<bool, Fault> {
        let event = self.next(alloc)?;
        match event {
            Some(event) => self.tell(event),
            None => self.answer.add(b"too many"),
        }
        Ok(event.is_some())
    }

    /// Steps the last tree by the moves, and adds the new one; None where that has too many nodes.
    fn next(&mut self, alloc: Global) -> Result<Option<Event>, Fault> {
        let Some(last) = self.trees.last() else {
            return Err(Fault::Missing);
        };
        match step(alloc, last, &self.moves) {
            Ok((tree, event)) => {
                self.trees.push(tree)?;
                Ok(Some(event))
            }
            Err(TreeFault::Nodes) => Ok(None),
            Err(TreeFault::Memory) => Err(Fault::Memory),
        }
    }

    /// Tells the number of nodes of the last tree, and the least red and green names.
    fn tell(&mut self, event: Event) {
        self.tell_nodes();
        self.tell_name(event.red);
        self.tell_name(event.green);
    }

    fn tell_nodes(&mut self) {
        if let Some(tree) = self.trees.last() {
            self.answer.add_number(u64::from(tree.nodes()));
        }
    }

    fn tell_name(&mut self, name: Option<u32>) {
        match name {
            Some(name) => self.answer.add_count(b"", name),
            None => self.answer.add(b" -"),
        }
    }

    /// Tells which earlier tree equals the last one.
    fn tell_earlier(&mut self) {
        if let Some(place) = first_equal(&self.trees) {
            self.answer.add(b" =");
            self.answer.add_number(place);
        }
    }

    /// The number of nodes after so many steps of a chain of so many states; or with `goes_back`, what a further step that leads
    /// back to the first state answers.
    fn chain(&mut self, alloc: Global, line: &str, goes_back: bool) -> Result<(), Fault> {
        let (states, steps) = range(line)?;
        add_chain(&mut self.moves, states)?;
        self.begin(alloc, "0")?;
        if !self.grow(alloc, steps)? {
            self.answer.add(b"too many");
        } else if goes_back {
            self.go_back(alloc, states)?;
        } else {
            self.tell_nodes();
        }
        Ok(())
    }

    /// Takes so many steps, and answers whether none had too many nodes.
    fn grow(&mut self, alloc: Global, steps: u32) -> Result<bool, Fault> {
        for _ in 0..steps {
            if self.next(alloc)?.is_none() {
                return Ok(false);
            }
        }
        Ok(true)
    }

    /// Takes a step from the last of so many states to the first.
    fn go_back(&mut self, alloc: Global, states: u32) -> Result<bool, Fault> {
        self.moves.clear();
        add(&mut self.moves, states.saturating_sub(1), 0, false)?;
        self.take(alloc)
    }

    /// From `SEED STEPS`: what is seen on a long walk.
    fn long(&mut self, alloc: Global, line: &str) -> Result<(), Fault> {
        let (first, steps) = kind_and_rest(line);
        let told = long_told(alloc, number(first)?, number(steps)?)?;
        self.answer.add(told.as_bytes());
        Ok(())
    }
}

/// The index of the first of the trees that equals the last, where that is an earlier one.
fn first_equal(trees: &[SafraTree]) -> Option<u64> {
    let (last, earlier) = trees.split_last()?;
    let mut place = 0u64;
    for tree in earlier {
        if tree == last {
            return Some(place);
        }
        place = place.saturating_add(1);
    }
    None
}

/// What is seen on a long walk, in two lines. The first argument is the seed of the random sequence.
pub(crate) fn long_told(alloc: Global, first: u32, steps: u32) -> Result<String, Fault> {
    let seen = long_walk(alloc, first, steps)?;
    let (least, most) = (seen.least, seen.most);
    let (red, green, checksum) = (seen.red, seen.green, seen.checksum);
    Ok(format!(in alloc;
        "steps={steps} of trees of {least} to {most} nodes\nred={red} green={green} checksum={checksum}"
    )?)
}
