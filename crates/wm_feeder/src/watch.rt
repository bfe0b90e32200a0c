//! One inotifywait as a feed sees it: its number, and what it says beside its records. Tests: feed_tests, tools/try/feed.

use crate::root::Root;
use crate::system::{System, Watcher};
use std::io;
use std::io::ErrorKind;
use wm_client::Stop;
use wm_feed::{Words, is_for_user};

/// What came of a reading.
#[derive(Clone, Copy, Debug, PartialEq, Eq)]
pub(crate) enum Got {
    Some,
    /// Nothing came for so long.
    Nothing,
    /// What was read from ended.
    End,
}

/// What a reading came to.
pub(crate) fn got_of(read: io::Result<usize>) -> Got {
    match read {
        Ok(0) => Got::End,
        Ok(_) => Got::Some,
        Err(error) => match error.kind() {
            ErrorKind::WouldBlock | ErrorKind::TimedOut | ErrorKind::Interrupted => Got::Nothing,
            _ => Got::End,
        },
    }
}

/// A running inotifywait.
#[derive(Drop)]
pub(crate) struct Watch<Y: System> {
    number: u64,
    watcher: Y::Watcher,
    words: Words,
    is_established: bool,
}

impl<Y: System> Watch<Y> {
    /// Starts an inotifywait on folders.
    pub(crate) fn start(
        root: &Root<'_, Y>,
        records: &Y::Records,
        number: u64,
        folders: &[String],
    ) -> Result<Watch<Y>, Stop> {
        Ok(Watch {
            number,
            watcher: root.system.watch(root.alloc, records, number, folders)?,
            words: Words::new(root.alloc),
            is_established: false,
        })
    }

    /// The number in front of its records.
    pub(crate) fn number(&self) -> u64 {
        self.number
    }

    /// The number of its process.
    pub(crate) fn process(&self) -> u32 {
        self.watcher.process()
    }

    /// Whether it watches each of its folders.
    pub(crate) fn is_established(&self) -> bool {
        self.is_established
    }

    /// Reports to the user what it said for a user; whether it complained.
    fn tell_words(&mut self, root: &mut Root<'_, Y>) -> Result<bool, Stop> {
        let mut is_any = false;
        for _ in 0..u64::MAX {
            let Some(line) = self.words.take_line(root.alloc)? else {
                break;
            };
            if is_for_user(line.as_bytes()) {
                let text = format!(in root.alloc; "wmfeed: inotifywait: {line}")?;
                root.said.tell(root.system, text)?;
            }
            is_any = true;
        }
        Ok(is_any)
    }

    /// Reads what it says.
    fn read_words(&mut self) -> Result<Got, Stop> {
        let mut room = [0u8; 4_096];
        let read = self.watcher.read_words(&mut room);
        if let Ok(n) = &read {
            self.words.push(&room[..(*n).min(room.len())])?;
        }
        Ok(got_of(read))
    }

    /// Reports to the user what it says for a user; whether it complained, and whether it ended.
    pub(crate) fn hear(&mut self, root: &mut Root<'_, Y>) -> Result<Got, Stop> {
        let mut heard = Got::Nothing;
        for _ in 0..u64::MAX {
            let got = self.read_words()?;
            if self.tell_words(root)? {
                heard = Got::Some;
            }
            if self.words.take_established() {
                self.is_established = true;
            }
            match got {
                Got::Some => {}
                Got::Nothing => return Ok(heard),
                Got::End => break,
            }
        }
        Ok(Got::End)
    }

    /// Ends it.
    pub(crate) fn end(&mut self) {
        self.watcher.end();
    }
}
