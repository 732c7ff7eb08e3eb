//! The groups of a pattern's columns.

ghost use Rattle.std.specs.Prelude.{◌≡◌, ◌≢◌, ◌<◌, ◌≤◌, ℕ, All, IfOk, length, slice_index, if◌then◌else◌};
ghost use Rattle.def_jacobian.specs.Groups.{AreLeastGroups, count_of};
ghost use Rattle.adj_jacobian_groups.specs.View.{columns_of_rows, AreNumbered};
ghost use Rattle.adj_jacobian_groups.specs.Listed.{any_in, any_row_in};

use crate::lists::rows_of_columns;
use crate::sparsity::{Grouping, Row, Sparsity};
use adj_tree::{Items, Memory};
use std::alloc::Global;

// Stamps the groups of those of some columns that have one.
fn mark(stamps: &mut [usize], groups: &[u64], columns: &[u64], stamp: usize)
    requires { All (λ g. g < length stamps.old) groups.now }
    ensures count { length stamps.new ≡ length stamps.old }
    ensures stamped { (g : ℕ) → g < length stamps.old → slice_index stamps.new g ≡ (if any_in groups.now columns.now g then stamp else slice_index stamps.old g) }
{
    for column in columns {
        let column = *column as usize;
        if column < groups.len() {
            stamps[groups[column] as usize] = stamp;
        }
    }
}

// The same for the columns of some rows, by their numbers.
fn mark_rows(stamps: &mut [usize], groups: &[u64], rows: &[Row], numbers: &[usize], stamp: usize)
    requires within { All (λ g. g < length stamps.old) groups.now }
    requires rows { All (λ r. r < length rows.now) numbers.now }
    ensures count { length stamps.new ≡ length stamps.old }
    ensures stamped { (g : ℕ) → g < length stamps.old → slice_index stamps.new g ≡ (if any_row_in groups.now (columns_of_rows rows.now) numbers.now g then stamp else slice_index stamps.old g) }
{
    for number in numbers {
        mark(stamps, groups, rows[*number].columns.as_slice(), stamp);
    }
}

// The first group with another stamp, or the number of the groups.
fn least_free(stamps: &[usize], stamp: usize) -> usize
    ensures within { result ≤ length stamps.now }
    ensures taken { (g : ℕ) → g < result → slice_index stamps.now g ≡ stamp }
    ensures free { result < length stamps.now → slice_index stamps.now result ≢ stamp }
{
    for (group, mark) in stamps.iter().enumerate() {
        if *mark != stamp {
            return group;
        }
    }
    stamps.len()
}

/// Gives each column in order the least group in which no column shares a row with it. It goes through the rows of each column,
/// so its cost is linear in the sum of the squares of the rows' lengths, and in the columns.
pub fn groups(alloc: Global, pattern: &Sparsity) -> Result<Grouping, Memory>
    requires numbered { AreNumbered pattern.now }
    ensures least { IfOk result (λ g. AreLeastGroups (columns_of_rows pattern.now.rows) (length pattern.now.cols) g.group) }
    ensures count { IfOk result (λ g. g.count ≡ count_of g.group) }
{
    let columns = pattern.cols.as_slice().len();
    let rows = pattern.rows.as_slice();
    let lists = rows_of_columns(alloc, columns, rows)?;
    let mut stamps = vec![in alloc; 0usize; columns]?;
    let mut groups = Vec::new(alloc);
    let mut count = 0;
    for column in 0..columns {
        let stamp = column + 1;
        mark_rows(
            stamps.as_mut_slice(),
            groups.as_slice(),
            rows,
            lists.at(column),
            stamp,
        );
        let group = least_free(&stamps[..count], stamp);
        groups.push(group as u64)?;
        count = count.max(group + 1);
    }
    Ok(Grouping {
        group: Items::new(groups),
        count: count as u64,
    })
}
