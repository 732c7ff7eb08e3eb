//! Entries, item by item.

ghost use Rattle.std.specs.Prelude.{◌≡◌, List, ℕ, [], ◌∷◌, ◌++◌, true, map, None, Some, IfErr, IfOk, OnOk, MatchOption};
ghost use Rattle.def_text.specs.Line.{cut_lines};
ghost use Rattle.adj_data.specs.Items.{Item, texts_in, items_with, items_of, is_title, name_of as capitals, number_of_item};
ghost use Rattle.adj_data.specs.Entries.{Entry as AnEntry, entry_named, with_number, with_item, with_items};
ghost use Rattle.adj_data.specs.Faults.{number_code, name_code, item_code, fault_at, entries_fault};
ghost use Rattle.adj_data.specs.Given.{IsFirstFault, entry_seen};
ghost use Rattle.adj_data.specs.Titles.{takes_marks};

use crate::data_code::DataCode;
use crate::data_error::DataError;
use crate::items::{Titles, is_number, is_title, name_of, next_item};
use crate::numbers::number_of_item;
use adj_fixed::{next_number, split_line, without_cr};
use adj_sets::NameSet;
use adj_tree::Memory;
use std::alloc::Global;
use std::marker::Model;

/// A name, its line, and the numbers behind it.
pub(crate) struct Entry {
    pub(crate) name: Vec<u8>,
    pub(crate) line: u32,
    pub(crate) numbers: Vec<i64>,
}

impl Drop for Entry {
    fn drop(self) {
        let Entry {
            name: _name,
            line: _,
            numbers: _numbers,
        } = self;
    }
}

/// What entries are read by: the names that they may have, and which items begin them.
pub(crate) struct Reading {
    pub(crate) names: NameSet,
    pub(crate) titles: Titles,
}

impl Drop for Reading {
    fn drop(self) {
        let Reading {
            names: _names,
            titles: _titles,
        } = self;
    }
}

/// The entries that were read so far, in order, which are found by their names.
pub(crate) struct Entries {
    names: NameSet,
    entries: Vec<Entry>,
}

impl Drop for Entries {
    fn drop(self) {
        let Entries {
            names: _names,
            entries: _entries,
        } = self;
    }
}

impl Model for Entries {
    ghost Value = { List AnEntry };

    ghost view = { λ s. map entry_seen s.entries.items };

    ghost invariant = { λ s. s.names ≡ map (λ e. e.name.items) s.entries.items };
}

impl Entries {
    /// No entries.
    fn new(alloc: Global) -> Result<Entries, Memory>
        ensures empty { IfOk result (λ es. es ≡ []) }
    {
        let names = NameSet::new(alloc)?;
        Ok(Entries {
            names,
            entries: Vec::new(alloc),
        })
    }

    /// The entry of a name.
    pub(crate) fn find(&self, name: &[u8]) -> Option<&Entry>
        ensures { MatchOption result
            (entry_named name.now self.now ≡ None)
            (λ e. entry_named name.now self.now ≡ Some (entry_seen e.now)) }
    {
        let place = self.names.place(name)?;
        Some(&self.entries[place])
    }

    // A name begins an entry.
    fn begin(
        &mut self,
        alloc: Global,
        dummies: &NameSet,
        item: &[u8],
        line: u32,
    ) -> Result<(), DataError>
        ensures ok { OnOk result (name_code dummies.now self.old (capitals item.now) ≡ None) }
        ensures entries { OnOk result (self.new ≡ self.old ++ (record { name = capitals item.now; line = line; numbers = [] } ∷ [])) }
        ensures fault { IfErr result (λ e. IsFirstFault e (fault_at line (name_code dummies.now self.old (capitals item.now)))) }
    {
        let name = name_of(alloc, item)?;
        if !dummies.has(&name) {
            return Err(DataError::Data(DataCode::UnknownName, line));
        }
        if self.names.has(&name) {
            return Err(DataError::Data(DataCode::RepeatedName, line));
        }
        self.entries.try_reserve(1)?;
        self.names.add(alloc, &name)?;
        self.entries
            .push(Entry {
                name,
                line,
                numbers: Vec::new(alloc),
            })
            .unwrap();
        Ok(())
    }

    // A number goes on with the last entry.
    fn go_on(&mut self, item: &[u8], line: u32) -> Result<(), DataError>
        ensures ok { OnOk result (number_code self.old item.now ≡ None) }
        ensures entries { OnOk result (self.new ≡ with_number (number_of_item item.now) self.old) }
        ensures fault { IfErr result (λ e. IsFirstFault e (fault_at line (number_code self.old item.now))) }
    {
        let count = self.entries.len();
        if count == 0 {
            return Err(DataError::Data(DataCode::Item, line));
        }
        let Some(number) = number_of_item(item) else {
            return Err(DataError::Data(DataCode::LargeNumber, line));
        };
        self.entries[count - 1].numbers.push(number)?;
        Ok(())
    }

    // One item more.
    fn read_item(
        &mut self,
        alloc: Global,
        reading: &Reading,
        item: &[u8],
        leads: bool,
        line: u32,
    ) -> Result<(), DataError>
        ensures ok { OnOk result (item_code reading.now.names self.old (record { line = line; leads = leads; begins = is_title (takes_marks reading.now.titles) item.now; text = item.now }) ≡ None) }
        ensures entries { OnOk result (self.new ≡ with_item self.old (record { line = line; leads = leads; begins = is_title (takes_marks reading.now.titles) item.now; text = item.now })) }
        ensures fault { IfErr result (λ e. IsFirstFault e (fault_at line (item_code reading.now.names self.old (record { line = line; leads = leads; begins = is_title (takes_marks reading.now.titles) item.now; text = item.now })))) }
    {
        if is_title(reading.titles, item) {
            if leads {
                self.begin(alloc, &reading.names, item, line)
            } else {
                Err(DataError::Data(DataCode::Item, line))
            }
        } else if is_number(item) {
            self.go_on(item, line)
        } else {
            Err(DataError::Data(DataCode::Item, line))
        }
    }

    // The items of one line more.
    fn read_line(
        &mut self,
        alloc: Global,
        reading: &Reading,
        line: &[u8],
        number: u32,
    ) -> Result<(), DataError>
        ensures ok { OnOk result (entries_fault reading.now.names self.old (items_with (takes_marks reading.now.titles) number true (texts_in line.now)) ≡ None) }
        ensures entries { OnOk result (self.new ≡ with_items self.old (items_with (takes_marks reading.now.titles) number true (texts_in line.now))) }
        ensures fault { IfErr result (λ e. IsFirstFault e (entries_fault reading.now.names self.old (items_with (takes_marks reading.now.titles) number true (texts_in line.now)))) }
    {
        let mut rest = line;
        let mut leads = true;
        while let Some((item, behind)) = next_item(rest) {
            self.read_item(alloc, reading, item, leads, number)?;
            leads = false;
            rest = behind;
        }
        Ok(())
    }
}

/// The entries of data that stand behind the line of a number.
pub(crate) fn read(
    alloc: Global,
    bytes: &[u8],
    line: u32,
    reading: &Reading,
) -> Result<Entries, DataError>
    ensures ok { OnOk result (entries_fault reading.now.names [] (items_of (takes_marks reading.now.titles) line (cut_lines bytes.now)) ≡ None) }
    ensures entries { IfOk result (λ es. es ≡ with_items [] (items_of (takes_marks reading.now.titles) line (cut_lines bytes.now))) }
    ensures fault { IfErr result (λ e. IsFirstFault e (entries_fault reading.now.names [] (items_of (takes_marks reading.now.titles) line (cut_lines bytes.now)))) }
{
    let mut entries = Entries::new(alloc)?;
    let mut rest = bytes;
    let mut number = line;
    while !rest.is_empty() {
        let (text, behind) = split_line(rest);
        number = next_number(number);
        entries.read_line(alloc, reading, without_cr(text), number)?;
        rest = behind;
    }
    Ok(entries)
}
