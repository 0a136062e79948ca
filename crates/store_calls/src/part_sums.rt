// Rows that are added to inclusive costs in two parts, and both parts as one.
ghost use Rattle.std.specs.Prelude.{◌≡◌, ◌+◌, ◌*◌, ◌<◌, List, length, IfOk, OnOk};
ghost use Rattle.std.specs.List.{AllByRecursion};
ghost use Rattle.cost_rows.specs.KeySums.{total_of, sum_end};
ghost use Rattle.cost_rows.specs.Plain.{plain_stack};
ghost use Rattle.cost_rows.specs.declared.keys.Key.TheVariants.{Function};
ghost use Rattle.report_texts.specs.Pairs.{AreBelow};
ghost use Rattle.plain_tables.specs.Tables.{NameRow};
ghost use Rattle.run_stores.specs.Book.{IsHeld};
ghost use Rattle.selected_runs.specs.Named.{AreOf};
ghost use Rattle.selected_runs.specs.Sums.{numbers_told, numbers_total};
ghost use Rattle.store_calls.specs.InclusiveParts.{costs_named, none_added, sums_in, with_calls, with_self_costs, with_stacks};

use crate::inclusive_parts::InclusiveParts;
use cg_text::ListVec;
use cost_reports::{FrameSums, InclusiveSums};
use cost_rows::{ArcRow, CellRow, Key, StackRow};
use run_stores::{NameTable, StoreError};
use selected_runs::{NumberSums, is_within};
use std::alloc::{AllocError, Global};

impl InclusiveParts {
    /// No row was added. Takes no memory.
    pub fn new(alloc: Global) -> InclusiveParts
        ensures { sums_in result ≡ none_added }
    {
        InclusiveParts {
            numbers: NumberSums::new(alloc, Key::Function),
            called: NumberSums::new(alloc, Key::Function),
            self_cost: 0,
            stacks: FrameSums::new(alloc),
        }
    }

    /// Adds a row of self costs.
    pub fn add_self(&mut self, row: &CellRow<u32>) -> Result<(), AllocError>
        requires small { AreBelow (numbers_total self.old.numbers.sums + row.now.cost) (self.old.self_cost + row.now.cost) }
        ensures { OnOk result (sums_in self.new ≡ with_self_costs (sums_in self.old) row.now) }
    {
        self.numbers.add(row)?;
        self.self_cost += row.cost;
        Ok(())
    }

    /// Adds calls to another function, which cost so much.
    pub fn add_outward(
        &mut self,
        row: &ArcRow<u32, ListVec<u128>>,
        cost: u128,
    ) -> Result<(), AllocError>
        requires small { numbers_total self.old.numbers.sums + cost < sum_end }
        ensures { OnOk result (sums_in self.new ≡ with_calls (sums_in self.old) row.now cost) }
    {
        self.numbers.add(&CellRow {
            object: row.object,
            file: row.file,
            function: row.function,
            line: row.line,
            thread: 0,
            event: 0,
            cost,
        })?;
        self.called.add(&CellRow {
            object: row.called_object,
            file: row.called_file,
            function: row.called_function,
            line: 0,
            thread: 0,
            event: 0,
            cost,
        })?;
        Ok(())
    }

    /// Adds a row of stacks.
    pub fn add_stack(&mut self, row: &StackRow<&[u8]>) -> Result<(), AllocError>
        requires sum { total_of self.old.stacks.sums + (length row.now.stack.now + 1) * row.now.count < sum_end }
        requires total { self.old.stacks.total + row.now.count < sum_end }
        ensures { OnOk result (sums_in self.new ≡ with_stacks (sums_in self.old) (plain_stack row.now)) }
    {
        self.stacks.add_stack(row)?;
        Ok(())
    }

    /// Both parts as one, by name: the names are looked up once for each sum, and may be some of all names.
    /// Errors: `Memory`; and `Store` where a name is not held, or where both together pass the bound of sums.
    pub fn named<'n, N: NameTable>(
        &'n self,
        alloc: Global,
        names: &'n N,
    ) -> Result<InclusiveSums<'n>, StoreError>
        ensures held { IfOk result (λ _. AllByRecursion (IsHeld (N.name_rows names.now)) (numbers_told Function self.now.numbers.sums)) }
        ensures sums { IfOk result (λ sums. (all : List NameRow) → AreOf all (N.name_rows names.now)
            → sums ≡ costs_named all (sums_in self.now)) }
    {
        let costs = self.numbers.named(alloc, names)?;
        let sum = self.stacks.sum();
        if !is_within(costs.total(), sum) || !is_within(self.self_cost, self.stacks.total()) {
            return Err(StoreError::Store);
        }
        let all = self.stacks.with_costs(costs, self.self_cost)?;
        Ok(all)
    }
}
