//! How many rows of a table have each grain, counted once for a column and a domain.

ghost use Rattle.std.specs.Prelude.{◌≡◌, ◌^◌, ◌<◌, ◌∷◌, [], length, slice_get, IfOk, IfSome, OnOk, Some};
ghost use Rattle.std.specs.List.{filter};
ghost use Rattle.vc_plan.specs.Domains.{atom_count, grains_in, grains_of, passes};
ghost use Rattle.vc_plan.specs.Pieces.{lies_in};
ghost use Rattle.vc_net_bounds.specs.Capping.{capped};
ghost use Rattle.vc_net_bounds.specs.Keeping.{cells_of, column_by, column_counts, lies_in_piece, own_columns};
ghost use Rattle.vc_net_bounds.specs.Keeping.{row_counts, sole};

use crate::capping::capped_count;
use crate::tables::count_rows;
use indexmap::IndexSet;
use std::alloc::{AllocError, Global};
use std::marker::Model;
use vc_plan::{Binding, Piece, Plan, count_of, element};
use vc_plan_values::{grain_count, lies_in, piece};
use vc_rule_table::rows::{is_column_of, rows_of};
use vc_value::{Listed, Value};

/// A column of a table, against the grains of a domain.
#[derive(Clone, Copy, Debug, PartialEq, Eq, Hash)]
pub struct Column {
    pub table: u32,
    pub column: u32,
    pub domain: u32,
}

/// The counts of the columns that were asked for.
#[derive(Drop)]
pub struct Kept {
    alloc: Global,
    columns: IndexSet<Column>,
    counts: Listed<Listed<u32>>,
}

impl Model for Kept {
    ghost use Rattle.vc_net_bounds.specs.Keeping.{Counts};

    ghost Value = { Counts };

    ghost view = { λ k. record { columns = k.columns.keys; counts = k.counts } };
}

impl Kept {
    ghost use Rattle.std.specs.Prelude.{◌≡◌, ◌^◌, ◌<◌, [], length, slice_get, IfOk, OnOk, Some};
    ghost use Rattle.vc_plan.specs.Domains.{atom_count, grains_in, grains_of};
    ghost use Rattle.vc_net_bounds.specs.Keeping.{IsKept, column_counts, row_counts};

    /// None yet.
    pub fn new(alloc: Global) -> Kept
        ensures columns { result.columns ≡ [] }
        ensures counts { result.counts ≡ [] }
    {
        Kept {
            alloc,
            columns: IndexSet::new(alloc),
            counts: Listed::new(alloc),
        }
    }

    /// Where the column's counts stand, which are counted by a variable's grains where they aren't there yet.
    pub fn place_of(&mut self, plan: &Plan, var: u32, column: Column) -> Result<usize, AllocError>
        requires few { atom_count plan.now < 2 ^ 32 }
        requires grains { grains_of plan.now var ≡ grains_in (slice_get plan.now.domains column.domain) }
        requires kept { IsKept plan.now self.old }
        ensures kept { OnOk result (IsKept plan.now self.new) }
        ensures counts { IfOk result (λ place. slice_get self.new.counts place ≡ Some (column_counts plan.now column)) }
    {
        let (place, is_new) = self.columns.insert_full(column)?;
        if is_new {
            self.counts
                .push(count_column(self.alloc, plan, var, column)?)?;
        }
        Ok(place)
    }

    /// The counts at the place.
    pub fn counts_at(&self, place: usize) -> &[u32]
        requires { place < length self.now.counts }
        ensures { slice_get self.now.counts place ≡ Some result.now }
    {
        self.counts.as_slice()[place].as_slice()
    }

    /// How many rows have each grain of the variable, counted anew.
    #[tactic(auto, using(vc_net_places::proofs::PlaceLaws::Things::mapped_next))]
    pub fn count_anew(
        &self,
        plan: &Plan,
        table: u32,
        columns: &[Binding],
        var: u32,
    ) -> Result<Listed<u32>, AllocError>
        ensures { IfOk result (λ counts. counts ≡ row_counts plan.now table columns.now var) }
    {
        let mut counts = Listed::new(self.alloc);
        for grain in 0..count_of(plan, var) {
            counts.push(count_rows(plan, columns, var, grain, rows_of(plan, table)))?;
        }
        Ok(counts)
    }
}

fn piece_has(piece: Option<Piece>, value: Value) -> bool
    ensures { result ≡ passes (lies_in value) piece }
{
    match piece {
        Some(piece) => lies_in(value, piece),
        None => false,
    }
}

fn lies_in_piece(piece: Option<Piece>, cell: Option<Value>) -> bool
    ensures { result ≡ lies_in_piece piece cell }
{
    match cell {
        Some(value) => piece_has(piece, value),
        None => false,
    }
}

// How many of the cells lie in the piece, as far as that is told.
#[tactic(auto, using(crate::proofs::CappingLemmas::row_next, crate::proofs::CappingLemmas::sum_done))]
fn count_cells(piece: Option<Piece>, cells: &[Option<Value>]) -> u32
    ensures { result ≡ capped (length (filter (lies_in_piece piece) cells.now)) }
{
    let mut count = 0;
    let mut rest = cells;
    while let [cell, more @ ..] = rest {
        count = capped_count(lies_in_piece(piece, *cell), count);
        rest = more;
    }
    count
}

fn cell_at(row: &[Value], column: u32) -> Option<Value>
    ensures { result ≡ slice_get row.now column }
{
    match element(row, column) {
        Some(value) => Some(*value),
        None => None,
    }
}

// The cells in the column, one after another in memory.
fn cells_of(alloc: Global, plan: &Plan, column: Column) -> Result<Listed<Option<Value>>, AllocError>
    ensures { IfOk result (λ cells. cells ≡ cells_of plan.now column) }
{
    let mut cells = Listed::new(alloc);
    let mut rest = rows_of(plan, column.table);
    while let [row, more @ ..] = rest {
        cells.push(cell_at(row.as_slice(), column.column))?;
        rest = more;
    }
    Ok(cells)
}

// How many of the column's cells lie in each grain of the variable.
fn count_by_cells(
    alloc: Global,
    plan: &Plan,
    var: u32,
    column: Column,
    cells: &[Option<Value>],
) -> Result<Listed<u32>, AllocError>
    requires few { atom_count plan.now < 2 ^ 32 }
    requires grains { grains_of plan.now var ≡ grains_in (slice_get plan.now.domains column.domain) }
    requires cells { cells.now ≡ cells_of plan.now column }
    ensures { IfOk result (λ counts. counts ≡ column_counts plan.now column) }
{
    let mut counts = Listed::new(alloc);
    for grain in 0..grain_count(plan, var) {
        let count = count_cells(piece(plan, var, grain), cells);
        counts.push(count)?;
    }
    Ok(counts)
}

// How many rows have each grain of the variable in the column.
fn count_column(
    alloc: Global,
    plan: &Plan,
    var: u32,
    column: Column,
) -> Result<Listed<u32>, AllocError>
    requires few { atom_count plan.now < 2 ^ 32 }
    requires grains { grains_of plan.now var ≡ grains_in (slice_get plan.now.domains column.domain) }
    ensures { IfOk result (λ counts. counts ≡ column_counts plan.now column) }
{
    let cells = cells_of(alloc, plan, column)?;
    let counts = count_by_cells(alloc, plan, var, column, cells.as_slice())?;
    Ok(counts)
}

// The one column that the variable is given to, if it is one alone.
#[tactic(auto, using(crate::proofs::KeepingLemmas::own_next, crate::proofs::KeepingLemmas::other_next))]
fn only_column(columns: &[Binding], var: u32) -> Option<u32>
    ensures { result ≡ sole (own_columns var columns.now) }
{
    let mut met = None;
    let mut rest = columns;
    while let [column, more @ ..] = rest {
        if is_column_of(var, *column) {
            if met.is_some() {
                return None;
            }
            met = Some(column.column);
        }
        rest = more;
    }
    met
}

/// The column of a table and the domain, by which the variable's rows are counted, where it is given to one column.
#[tactic(auto, using(crate::proofs::KeepingLemmas::one_column))]
pub fn column_for(plan: &Plan, table: u32, columns: &[Binding], var: u32) -> Option<Column>
    ensures found { result
        ≡ column_by table (slice_get plan.now.vars var) (sole (own_columns var columns.now)) }
    ensures counts { IfSome result (λ column. row_counts plan.now table columns.now var
        ≡ column_counts plan.now column) }
    ensures grains { IfSome result (λ column. grains_of plan.now var
        ≡ grains_in (slice_get plan.now.domains column.domain)) }
{
    let x = element(plan.vars.as_slice(), var)?;
    let column = only_column(columns, var)?;
    Some(Column {
        table,
        column,
        domain: x.domain,
    })
}
