//! A run from one edition to the next: two inserts, then a removal, and so on. Every tenth edition is kept until there is no
//! room.
use crate::keys;
use crate::keys::Size;
use shelf::{Refusal, Updated};

pub const SLOTS: u64 = 8;

// Where a run stands, by default before the first update of edition 0: the edition that the next update is made from; how many
// updates were done, how many were to remove a key that is not there, and how often there was no room. Of the checks, how many
// found a sound arena; and all that should not be.
#[derive(Clone, Copy, Debug, Default)]
pub struct Run {
    pub edition: u64,
    pub done: u64,
    pub absent: u64,
    pub full: u64,
    pub sound: u64,
    pub others: u64,
}

impl Run {
    pub fn checked(mut self, sound: bool) -> Self {
        if sound {
            self.sound = self.sound.saturating_add(1);
        } else {
            self.others = self.others.saturating_add(1);
        }
        self
    }

    fn updated(mut self, edition: u64) -> Self {
        self.edition = edition;
        self.done = self.done.saturating_add(1);
        self
    }

    fn refused(mut self, why: Refusal) -> Self {
        match why {
            Refusal::Absent => self.absent = self.absent.saturating_add(1),
            Refusal::NoSlot | Refusal::NoBranchCells | Refusal::NoEntryCells => {
                self.full = self.full.saturating_add(1);
            }
            _ => self.others = self.others.saturating_add(1),
        }
        self
    }
}

// Where there is no room, some other edition is dropped.
fn make_room(a: &mut [u64], turn: u64, edition: u64) {
    let other = turn % SLOTS;
    if other != edition {
        let _ = shelf::drop(a, other);
    }
}

// Else the one before is, but for every tenth.
fn let_go(a: &mut [u64], turn: u64, edition: u64) {
    if turn % 10 != 0 {
        let _ = shelf::drop(a, edition);
    }
}

fn update(a: &mut [u64], turn: u64, size: Size, edition: u64) -> Result<Updated, Refusal> {
    if turn % 3 == 2 {
        let key = keys::removed(turn, size);
        return shelf::remove(a, edition, keys::hash_of(key), key);
    }
    let key = keys::inserted(turn, size);
    shelf::insert(a, edition, keys::hash_of(key), key, turn)
}

// A turn on an arena of a size.
pub fn step(a: &mut [u64], turn: u64, size: Size, run: Run) -> Run {
    match update(a, turn, size, run.edition) {
        Ok(made) => {
            let_go(a, turn, run.edition);
            run.updated(made.edition)
        }
        Err(why) => {
            make_room(a, turn, run.edition);
            run.refused(why)
        }
    }
}
