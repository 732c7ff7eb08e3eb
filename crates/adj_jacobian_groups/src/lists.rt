//! The rows of each column.

ghost use Rattle.std.specs.Prelude.{◌≡◌, ◌<◌, ◌&&◌, ◌||◌, ◌==◌, ℕ, All, IfOk, OnOk, length, replicate, []};
ghost use Rattle.def_jacobian.specs.Groups.{has};
ghost use Rattle.adj_jacobian_groups.specs.View.{columns_of_rows};
ghost use Rattle.adj_jacobian_groups.specs.Listed.{list_at, with_more, ListRows};

use crate::sparsity::Row;
use adj_tree::Memory;
use std::alloc::Global;
use std::marker::Model;

/// Lists of numbers, seen as a list of lists.
#[derive(Drop)]
pub(crate) struct Lists {
    lists: Vec<Vec<usize>>,
}

impl Model for Lists {
    ghost use Rattle.std.specs.Prelude.{List, ℕ, map};

    ghost Value = { List (List ℕ) };

    ghost view = { λ s. map (λ l. l.items) s.lists.items };
}

impl Lists {
    // So many lists of nothing.
    fn new(alloc: Global, count: usize) -> Result<Lists, Memory>
        ensures empty { IfOk result (λ ls. ls ≡ replicate count []) }
    {
        let mut lists = Vec::new(alloc);
        for _list in 0..count {
            lists.push(Vec::new(alloc))?;
        }
        Ok(Lists { lists })
    }

    // Adds a number to a list, at its end.
    fn add(&mut self, list: usize, number: usize) -> Result<(), Memory>
        requires { list < length self.old }
        ensures { OnOk result (self.new ≡ with_more self.old list number) }
    {
        self.lists[list].push(number)?;
        Ok(())
    }

    /// A list.
    pub(crate) fn at(&self, list: usize) -> &[usize]
        requires { list < length self.now }
        ensures { result.now ≡ list_at self.now list }
    {
        self.lists[list].as_slice()
    }
}

// Adds the number of a row to the lists of its columns.
fn add_row(lists: &mut Lists, row: usize, columns: &[u64]) -> Result<(), Memory>
    requires { All (λ c. c < length lists.old) columns.now }
    ensures count { OnOk result (length lists.new ≡ length lists.old) }
    ensures added { OnOk result ((c r : ℕ) → has (list_at lists.new c) r ≡ (has (list_at lists.old c) r || (r == row && has columns.now c))) }
{
    for column in columns {
        lists.add(*column as usize, row)?;
    }
    Ok(())
}

/// The rows of each column, by their numbers. Each row is gone through once.
pub(crate) fn rows_of_columns(alloc: Global, columns: usize, rows: &[Row]) -> Result<Lists, Memory>
    requires { All (λ r. All (λ c. c < columns) r.columns) rows.now }
    ensures { IfOk result (λ ls. ListRows (columns_of_rows rows.now) columns ls) }
{
    let mut lists = Lists::new(alloc, columns)?;
    for (number, row) in rows.iter().enumerate() {
        add_row(&mut lists, number, row.columns.as_slice())?;
    }
    Ok(lists)
}
