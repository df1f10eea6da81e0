// What a command states, once its checks have passed.
ghost use Rattle.std.specs.Prelude.{◌≡◌, ℕ, false, ◌||◌, ◌++◌, is_ok, if◌then◌else◌, slice_index_or};
ghost use Rattle.scene.specs.Checks.{Answers};
ghost use Rattle.algebra.specs.Rules.{ruled};
ghost use Rattle.table.specs.Commands.{declares, has_title, stated, of_rule, of_command};
ghost use Rattle.table.specs.Statements.{rows_in};

use crate::commands::Command;
use algebra::rules::{ALL_RELATIONS, rows_of};
use scene::added::check_row;
use scene::refusals::Refusal;
use scene::sources::Row;
use std::alloc::AllocError;

// The rows that a command states.
#[derive(Clone, Copy)]
pub(crate) enum Statement {
    One(Row),
    Four([Row; 4]),
}

impl Statement {
    // Puts the rows behind others. One row is pushed: a slice of one, appended, made reading rows take two thirds more
    // instructions.
    pub(crate) fn add_to(self, rows: &mut Vec<Row>) -> Result<(), AllocError>
        ensures { rows.new.items ≡ (if is_ok result then rows.old.items ++ rows_in self else rows.old.items) }
    {
        match self {
            Statement::One(row) => {
                rows.push(row)?;
                Ok(())
            }
            Statement::Four(four) => rows.extend_from_slice(&four),
        }
    }
}

// What the commands before one have told: the number of moments, and which titles are declared.
#[derive(Clone, Copy)]
pub(crate) struct Context {
    moments: u16,
    // A flag for each title: one is a byte, so that the array has them all and nothing is searched.
    declared: [bool; 256],
}

impl Context {
    pub(crate) fn new(moments: u16) -> Context
        ensures moments { result.moments ≡ moments }
        ensures none { (t : ℕ) → slice_index_or result.declared t false ≡ false }
    {
        Context {
            moments,
            declared: [false; 256],
        }
    }

    // Whether both moments of the title are in the scene.
    fn has_title(&self, title: u8) -> bool
        ensures { result ≡ has_title self.now.moments title }
    {
        2 * u16::from(title) + 1 < self.moments
    }

    fn is_declared(&self, title: u8) -> bool
        ensures { result ≡ slice_index_or self.now.declared title false }
    {
        self.declared[title as usize]
    }

    // The titles declared, with the one that the command declares, if it does.
    pub(crate) fn declare(&mut self, command: Command)
        ensures moments { self.new.moments ≡ self.old.moments }
        ensures declared { (t : ℕ) → slice_index_or self.new.declared t false ≡ (slice_index_or self.old.declared t false || declares command t) }
    {
        if let Command::Title { title } = command {
            self.declared[title as usize] = true;
        }
    }

    // The rows of a rule from one title to another.
    fn rule_stated(&self, from: u8, set: u16, to: u8) -> Result<Statement, Refusal>
        ensures { Answers (of_rule self.now.moments (λ t. slice_index_or self.now.declared t false) from set to) (λ s. rows_in s ≡ ruled from set to) result }
    {
        if set < 1 || set > ALL_RELATIONS || !self.has_title(from) || !self.has_title(to) {
            return Err(Refusal::OperandOutOfRange);
        }
        if !self.is_declared(from) || !self.is_declared(to) {
            return Err(Refusal::TitleUndeclared);
        }
        let rows = rows_of(from, set, to).ok_or(Refusal::NotPointisable)?;
        Ok(Statement::Four(rows))
    }

    // The rows of a command.
    pub(crate) fn rows_stated(&self, command: Command) -> Result<Statement, Refusal>
        ensures { Answers (of_command self.now.moments (λ t. slice_index_or self.now.declared t false) command) (λ s. rows_in s ≡ stated command) result }
    {
        match command {
            Command::Row { left, set, right } => {
                let row = (u16::from(left), set, u16::from(right));
                check_row(row, self.moments).map_err(|_| Refusal::OperandOutOfRange)?;
                Ok(Statement::One(row))
            }
            Command::Title { title } => {
                if !self.has_title(title) {
                    return Err(Refusal::OperandOutOfRange);
                }
                let rise = 2 * u16::from(title);
                Ok(Statement::One((rise, 1, rise + 1)))
            }
            Command::Rule {
                from,
                high,
                low,
                to,
            } => self.rule_stated(from, u16::from_be_bytes([high, low]), to),
        }
    }
}
