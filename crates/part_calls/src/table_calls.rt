// Calls of the table of newest places.
ghost use Rattle.std.specs.Prelude.{◌<◌};

use crate::numbers::{drawn, key_of, place_of};
use crate::part::Part;
use std::alloc::{AllocError, Global};
use temporary_table::Table;

/// A call of a table.
#[derive(Clone, Copy)]
pub enum TableCall {
    /// Looks for the place of a key that has one.
    PlaceOf,
    /// Seats a new key.
    Seat,
    /// Looks for the key behind one that has a place.
    NextPlaced,
}

/// A table with the places of so many keys.
#[derive(Drop)]
pub struct TablePart {
    alloc: Global,
    table: Table,
    call: TableCall,
    keys: u32,
    ghost some: { 0 < keys },
}

impl TablePart {
    /// A table of so many places.
    pub fn new(alloc: Global, call: TableCall, keys: u32) -> Result<TablePart, AllocError>
        requires { 0 < keys }
    {
        let mut table = Table::new(alloc);
        for number in 0..keys {
            put(alloc, &mut table, number)?;
        }
        Ok(TablePart {
            alloc,
            table,
            call,
            keys,
        })
    }
}

// Seats the key with a number.
fn seat(alloc: Global, table: &mut Table, number: u32) -> Result<bool, AllocError> {
    match table.seat(key_of(alloc, number)?) {
        Ok(()) => Ok(true),
        Err(_) => Err(AllocError),
    }
}

// Gives the key with a number its place.
fn put(alloc: Global, table: &mut Table, number: u32) -> Result<(), AllocError> {
    let key = key_of(alloc, number)?;
    let Ok(other) = key.copy() else {
        return Err(AllocError);
    };
    match table.seat(other) {
        Ok(()) => {
            table.set(&key, place_of(number), false);
            Ok(())
        }
        Err(_) => Err(AllocError),
    }
}

impl Part for TablePart {
    fn is_answered(&mut self, call: u32) -> Result<bool, AllocError> {
        let asked = drawn(call, self.keys);
        Ok(match self.call {
            TableCall::PlaceOf => {
                let key = key_of(self.alloc, asked)?;
                self.table.place_of(&key) == Some((place_of(asked), false))
            }
            TableCall::Seat => {
                let number = self.keys.wrapping_add(call);
                seat(self.alloc, &mut self.table, number)?
            }
            TableCall::NextPlaced => {
                let key = key_of(self.alloc, asked)?;
                self.table.next_placed(32, Some(&key)).is_some()
            }
        })
    }
}
