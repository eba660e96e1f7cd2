//! What an owner is to be: a plain list.
use std::alloc::{AllocError, Global};

/// A record as the list has it.
#[derive(Clone, Copy)]
struct Row {
    number: u64,
    time: u64,
}

/// The records that an owner is to have, oldest first, and the number that the next one gets.
#[derive(Drop)]
pub struct Rows {
    rows: Vec<Row>,
    made: u64,
}

impl Rows {
    /// No record yet.
    pub fn new(alloc: Global) -> Rows {
        Rows {
            rows: Vec::new(alloc),
            made: 0,
        }
    }

    /// How many records there are.
    pub fn len(&self) -> usize {
        self.rows.len()
    }

    /// The number that the next record gets.
    pub fn made(&self) -> u64 {
        self.made
    }

    /// The number of the record at a place.
    pub fn number_at(&self, place: u32) -> Option<u64> {
        let row = self.rows.get(place as usize)?;
        Some(row.number)
    }

    /// The time of the record at a place.
    pub fn time_at(&self, place: u32) -> Option<u64> {
        let row = self.rows.get(place as usize)?;
        Some(row.time)
    }

    /// Appends a record of a time, and answers its number.
    pub fn put(&mut self, time: u64) -> Result<u64, AllocError> {
        let number = self.made;
        self.rows.push(Row { number, time })?;
        self.made = number.saturating_add(1);
        Ok(number)
    }

    /// Removes the records after a place.
    pub fn drop_after(&mut self, place: u32) {
        self.rows.truncate(place as usize + 1);
    }

    /// Removes the records before a place.
    pub fn raise(&mut self, place: u32) {
        let count = self.rows.len().min(place as usize);
        self.rows.drain(..count);
    }
}
