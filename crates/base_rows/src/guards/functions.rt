//! Truth functions of a few propositions as guards, compared with their tables.

use crate::guards::calls::{
    Join, bring, bring_twice, classes, holds, is_false, joined, meeting, of_label, pick, same,
};
use crate::guards::tables::{
    self, Table, bit, brought, class_of, fixed, label, names_on, negated, valuations,
};
use crate::values::letter;
use aut_base::{Letter, Memory, Names, Numbers};
use label_guards::{Guard, GuardList, Guards};
use row_automata::named;
use std::alloc::Global;

/// To which propositions those of another store are brought, in three trials.
const PLACES: [[u32; 3]; 3] = [[2, 0, 1], [1, 1, 0], [0, 1, 2]];

/// A store, and the guards of the first functions, by their tables.
#[derive(Drop)]
pub(crate) struct Functions {
    props: u8,
    store: Guards,
    guards: Vec<Guard>,
    names: Names,
}

impl Functions {
    /// The functions of so many propositions. The first ones get their guards at once.
    pub(crate) fn new(alloc: Global, props: u8, first: u16) -> Result<Functions, Memory> {
        let props = props.min(4);
        let mut functions = Functions {
            props,
            store: Guards::new(alloc, u32::from(props))?,
            guards: Vec::new(alloc),
            names: named(alloc, tables::names(props))?,
        };
        for table in 0..first {
            functions.add(alloc, table)?;
        }
        Ok(functions)
    }

    fn add(&mut self, alloc: Global, table: Table) -> Result<(), Memory> {
        let guard = self.made(alloc, table)?;
        self.guards.push(guard)?;
        Ok(())
    }

    /// The guard of a function, from a label.
    fn made(&mut self, alloc: Global, table: Table) -> Result<Guard, Memory> {
        let label = label(alloc, table, self.props)?;
        of_label(&mut self.store, &label)
    }

    /// The guard of a function.
    fn guard(&mut self, alloc: Global, table: Table) -> Result<Guard, Memory> {
        match self.guards.get(usize::from(table)) {
            Some(guard) => Ok(*guard),
            None => self.made(alloc, table),
        }
    }

    /// Whether each call on this function alone is right, but for `bring`.
    pub(crate) fn is_right(&mut self, alloc: Global, table: Table) -> Result<bool, Memory> {
        let g = self.guard(alloc, table)?;
        let negated = negated(table, self.props);
        Ok(
            is_false(&self.store, g) == Some(table == 0)
                && self.meets_rightly(g, table)
                && self.is_joined(alloc, Join::Not, g, g, negated)?
                && self.holds_rightly(alloc, g, table)?
                && self.picks_rightly(alloc, g, table)?
                && self.fixes_rightly(alloc, g, table)?,
        )
    }

    fn holds_rightly(&self, alloc: Global, g: Guard, table: Table) -> Result<bool, Memory> {
        for valuation in 0..valuations(self.props) {
            let letter = letter(alloc, &names_on(valuation))?;
            let holds = holds(&self.store, &self.names, g, &letter, u64::from(valuation));
            if holds != Some(bit(table, valuation)) {
                return Ok(false);
            }
        }
        Ok(true)
    }

    fn picks_rightly(&self, alloc: Global, g: Guard, table: Table) -> Result<bool, Memory> {
        match pick(alloc, &self.store, &self.names, g)? {
            Some(letter) => Ok(
                table != 0 && self.is_letter(&letter, table.trailing_zeros() as u16),
            ),
            None => Ok(table == 0),
        }
    }

    /// Whether a letter is that of this valuation.
    fn is_letter(&self, letter: &Letter, valuation: u16) -> bool {
        let mut place = 0u16;
        for name in self.names.as_slice() {
            if letter.has(name) != bit(valuation, place) {
                return false;
            }
            place = place.saturating_add(1);
        }
        true
    }

    fn meets_rightly(&self, g: Guard, table: Table) -> bool {
        match meeting(&self.store, g) {
            Some(number) => {
                number < u64::from(valuations(self.props)) && bit(table, number as u16)
            }
            None => table == 0,
        }
    }

    fn fixes_rightly(&mut self, alloc: Global, g: Guard, table: Table) -> Result<bool, Memory> {
        for prop in 0..self.props {
            if !self.is_fixed(alloc, g, table, prop, false)?
                || !self.is_fixed(alloc, g, table, prop, true)?
            {
                return Ok(false);
            }
        }
        Ok(true)
    }

    fn is_fixed(
        &mut self,
        alloc: Global,
        g: Guard,
        table: Table,
        prop: u8,
        value: bool,
    ) -> Result<bool, Memory> {
        let wanted = fixed(table, self.props, prop, value);
        self.is_joined(alloc, Join::Fix(u32::from(prop), value), g, g, wanted)
    }

    /// Whether a call made the guard of this function.
    fn is_of(&mut self, alloc: Global, made: Option<Guard>, table: Table) -> Result<bool, Memory> {
        Ok(made == Some(self.guard(alloc, table)?))
    }

    /// Whether the guard is right after it is brought from a copy of the store, where there are three propositions.
    pub(crate) fn is_brought_rightly(
        &mut self,
        alloc: Global,
        table: Table,
    ) -> Result<bool, Memory> {
        let other = self.store.copy(alloc)?;
        for to in PLACES {
            if !self.is_brought(alloc, &other, table, to)? {
                return Ok(false);
            }
        }
        Ok(true)
    }

    fn is_brought(
        &mut self,
        alloc: Global,
        other: &Guards,
        table: Table,
        to: [u32; 3],
    ) -> Result<bool, Memory> {
        let g = self.guard(alloc, table)?;
        let wanted = self.guard(alloc, brought(table, to))?;
        let to = Numbers::from_vec(Vec::from_slice(alloc, &to)?);
        Ok(
            bring(alloc, &mut self.store, other, g, &to)? == Some(wanted)
                && bring_twice(alloc, &mut self.store, other, g, &to)? == Some(wanted),
        )
    }

    /// Whether conjunction, disjunction and comparison of two functions are right.
    pub(crate) fn are_joined_rightly(
        &mut self,
        alloc: Global,
        first: Table,
        second: Table,
    ) -> Result<bool, Memory> {
        let g = self.guard(alloc, first)?;
        let h = self.guard(alloc, second)?;
        Ok(
            same(&self.store, g, h) == Some(first == second)
                && self.is_joined(alloc, Join::And, g, h, first & second)?
                && self.is_joined(alloc, Join::Or, g, h, first | second)?,
        )
    }

    fn is_joined(
        &mut self,
        alloc: Global,
        join: Join,
        g: Guard,
        h: Guard,
        wanted: Table,
    ) -> Result<bool, Memory> {
        let made = joined(alloc, &mut self.store, join, g, h)?;
        self.is_of(alloc, made, wanted)
    }

    /// Whether the classes of two functions are right, and are refused where the limit is one less.
    pub(crate) fn are_classed_rightly(
        &mut self,
        alloc: Global,
        first: Table,
        second: Table,
    ) -> Result<bool, Memory> {
        let list = self.list(alloc, first, second)?;
        let count = tables::count_classes(first, second, self.props);
        if classes(alloc, &mut self.store, &list, count.saturating_sub(1))?.is_some() {
            return Ok(false);
        }
        match classes(alloc, &mut self.store, &list, count)? {
            Some(found) => self.are_classes(alloc, found.as_slice(), first, second),
            None => Ok(false),
        }
    }

    /// The guards of two functions.
    fn list(&mut self, alloc: Global, first: Table, second: Table) -> Result<GuardList, Memory> {
        let g = self.guard(alloc, first)?;
        let h = self.guard(alloc, second)?;
        Ok(GuardList::from_vec(Vec::from_slice(alloc, &[g, h])?))
    }

    /// Whether these are the guards of the classes of two functions, by their least valuations.
    fn are_classes(
        &mut self,
        alloc: Global,
        found: &[Guard],
        first: Table,
        second: Table,
    ) -> Result<bool, Memory> {
        let mut place = 0usize;
        for valuation in 0..valuations(self.props) {
            let class = class_of(first, second, self.props, valuation);
            if class != 0 {
                if !self.is_of(alloc, found.get(place).copied(), class)? {
                    return Ok(false);
                }
                place = place.saturating_add(1);
            }
        }
        Ok(place == found.len())
    }
}
