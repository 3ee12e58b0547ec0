// What the next row of a profile has to keep to.
ghost use Rattle.std.specs.Prelude.{◌≡◌, cond, None, Some, Ok, Err, IfOk, OnErr};
ghost use Rattle.terms.specs.declared.refusal.Refusal.TheVariants.{ProfileHorizon};
ghost use Rattle.profile.specs.Rows.{end_before, misplaced, misloaded, goes_on, row_fault, unless, lawful_horizon};
ghost use Rattle.profile.specs.Views.{row_of};

use crate::row::Row;
use loads::kind::Kind;
use std::marker::Model;
use terms::refusal::Refusal;

/// The longest horizon, in minutes.
const LONGEST: u32 = 1_000_000_000;

/// The horizon, and the row before the next one, if there is one.
#[derive(Drop)]
pub(crate) struct Limits<K: Kind> {
    horizon: u32,
    before: Option<Row<K::Load>>,
}

impl<K: Kind> Model for Limits<K> {
    ghost use Rattle.std.specs.Option.{option_map};
    ghost use Rattle.profile.specs.Views.{RowLimits, row_of};

    ghost Value = { RowLimits };

    ghost view = { λ a. record { horizon = a.horizon; before = option_map (row_of K.counts) a.before } };
}

impl<K: Kind> Limits<K> {
    /// Those of the first row, unless the horizon is none of 1 to 1,000,000,000 minutes.
    pub(crate) fn new(horizon: u32) -> Result<Limits<K>, Refusal>
        ensures { result ≡ cond (lawful_horizon horizon) (Ok (record { horizon = horizon; before = None })) (Err ProfileHorizon) }
    {
        if horizon == 0 || LONGEST < horizon {
            return Err(Refusal::ProfileHorizon);
        }
        Ok(Limits {
            horizon,
            before: None,
        })
    }

    // Where the row before ends.
    fn end_before(&self) -> u64
        ensures { result ≡ end_before self.now.before }
    {
        self.before.map_or(0, |row| row.end())
    }

    // No minute, past the horizon, or begun before the row before ends.
    fn misplaced(&self, row: Row<K::Load>) -> bool
        ensures { result ≡ misplaced self.now.horizon self.now.before (row_of K.Kind.counts row) }
    {
        row.length == 0
            || u64::from(self.horizon) < row.end()
            || u64::from(row.offset) < self.end_before()
    }

    // Begun where the row before ends, with the same load.
    fn goes_on(&self, row: Row<K::Load>) -> bool
        ensures { result ≡ goes_on self.now.before (row_of K.Kind.counts row) }
    {
        self.before.is_some_and(|last| last.end() == u64::from(row.offset) && last.load == row.load)
    }

    fn misloaded(&self, row: Row<K::Load>) -> bool
        ensures { result ≡ misloaded self.now.before (row_of K.Kind.counts row) }
    {
        row.load == K::empty() || self.goes_on(row)
    }

    /// Takes the row as the next one, or tells why it cannot be.
    pub(crate) fn admit(&mut self, row: Row<K::Load>) -> Result<(), Refusal>
        ensures fault { result ≡ unless (row_fault self.old.horizon self.old.before (row_of K.Kind.counts row)) tt }
        ensures then { IfOk result (λ _. self.new ≡ record { horizon = self.old.horizon; before = Some (row_of K.Kind.counts row) }) }
        ensures kept { OnErr result (self.new ≡ self.old) }
    {
        if self.misplaced(row) {
            return Err(Refusal::RowPlace);
        }
        if self.misloaded(row) {
            return Err(Refusal::RowLoad);
        }
        self.before = Some(row);
        Ok(())
    }
}
