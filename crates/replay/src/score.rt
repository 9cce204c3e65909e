//! How a file of stored answers came out: how many calls and lines it has, how many of the lines are wrong, and whether the
//! last line says the same number of calls.

use answers::Line;
use std::io;

#[derive(Clone, Copy, Debug, Default, PartialEq, Eq)]
pub struct Score {
    lines: u64,
    calls: u64,
    wrong: u64,
    // what the last line says of the calls, once it was read
    total: Option<u64>,
}

impl Score {
    fn see(&mut self, right: bool) {
        if !right {
            self.wrong = self.wrong.saturating_add(1);
        }
    }

    // A line, by its letter: a comment, a part of the answer above it, the last line, or a call.
    pub fn line(&mut self, line: &Line, right: bool) {
        self.lines = self.lines.saturating_add(1);
        match line.letter {
            b'#' => {}
            b'+' => self.see(right),
            b't' => self.total = Some(line.numbers[0]),
            _ => {
                self.calls = self.calls.saturating_add(1);
                self.see(right);
            }
        }
    }

    // This file and another. The sum says no number of calls that it should have.
    pub fn and(self, other: Score) -> Self {
        Score {
            lines: self.lines.saturating_add(other.lines),
            calls: self.calls.saturating_add(other.calls),
            wrong: self.wrong.saturating_add(other.wrong),
            total: None,
        }
    }

    pub fn show(self, rt: &impl Print) -> io::Result<()> {
        print!(rt;
            ", calls {}, lines {}, wrong {}",
            self.calls, self.lines, self.wrong
        )?;
        if self.total != Some(self.calls) {
            print!(rt; ", not whole")?;
        }
        println!(rt;)
    }

    // All files on editions.
    pub fn show_all(self, rt: &impl Print) -> io::Result<()> {
        println!(rt;
            "replayed on the shelf: {} calls, {} wrong",
            self.calls, self.wrong
        )
    }
}
