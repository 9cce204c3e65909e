//! Updates from one edition to the next until there is no cell for one: three inserts of a new key, then a removal of an
//! older one, and so on.
use crate::keys;
use shelf::{Refusal, Updated};

// Where the updates stand: the edition that they began with, the one that the last made, the one that the tenth made, and the
// key that is inserted next; how many there were, how many were to remove a key that is not there, and the refusal that ended
// them.
#[derive(Clone, Copy, Debug)]
pub struct Run {
    pub first: u64,
    pub edition: u64,
    pub tenth: u64,
    pub key: u64,
    pub made: u64,
    pub absent: u64,
    pub ended: Option<Refusal>,
}

impl Run {
    // Before the first update of an edition.
    pub fn new(edition: u64, key: u64) -> Self {
        Run {
            first: edition,
            edition,
            tenth: edition,
            key,
            made: 0,
            absent: 0,
            ended: None,
        }
    }

    fn at(mut self, edition: u64) -> Self {
        self.edition = edition;
        self.made = self.made.saturating_add(1);
        if self.made == 10 {
            self.tenth = edition;
        }
        self
    }

    fn refused(mut self, why: Refusal) -> Self {
        if why == Refusal::Absent {
            self.absent = self.absent.saturating_add(1);
        } else {
            self.ended = Some(why);
        }
        self
    }

    fn after(self, answer: Result<Updated, Refusal>) -> Self {
        match answer {
            Ok(made) => self.at(made.edition),
            Err(why) => self.refused(why),
        }
    }

    fn insert(mut self, a: &mut [u64]) -> Self {
        let key = self.key;
        self.key = key.saturating_add(1);
        self.after(shelf::insert(a, self.edition, keys::hash_of(key), key, key))
    }

    fn remove(self, a: &mut [u64]) -> Self {
        let key = self.key / 2;
        self.after(shelf::remove(a, self.edition, keys::hash_of(key), key))
    }

    fn update(self, a: &mut [u64], turn: u64) -> Self {
        if turn % 4 == 3 {
            self.remove(a)
        } else {
            self.insert(a)
        }
    }
}

// No arena has the slots for more updates than this.
const TURNS: u64 = 200;

pub fn fill(a: &mut [u64], begun: Run) -> Run {
    let mut run = begun;
    for turn in 0..TURNS {
        if run.ended.is_some() {
            return run;
        }
        run = run.update(a, turn);
    }
    run
}
