//! What the records of a watch ask for together, at each place that the name of a folder may stand for.
//! Tests: feed_tests, tools/try/feed.

use std::alloc::Global;
use wm_client::Stop;
use wm_disk::Refusal;
use wm_feed::{Batch, Change, Checks, Orphans, Renames, Told};
use wm_names::RelPath;

/// The most arrivals that wait for their departures.
const MAX_WAITING: usize = 1_024;

/// A folder whose arrival was reported before its departure: another inotifywait reports that, later.
#[derive(Drop)]
struct Arrival {
    cookie: Vec<u8>,
    folder: String,
    name: String,
}

/// The names of a watch's folders, and which of them are to be checked.
#[derive(Drop)]
pub(crate) struct Gathering {
    renames: Renames,
    pub(crate) checks: Checks,
    /// Whether a watch may have been lost by a folder that moved, since all folders were last to be checked.
    is_moved: bool,
    /// The watch that reported last, if it reported that a folder left, and the word of the move.
    leaving: Option<(u64, Vec<u8>)>,
    /// The folders that came and didn't leave yet, and whether one of them isn't kept any longer.
    arrived: Vec<Arrival>,
    is_forgotten: bool,
    /// The names by which something was reported where no folder is.
    pub(crate) orphans: Orphans,
    /// The last folder that was reported, and its places.
    folder: String,
    places: Vec<RelPath>,
}

impl Gathering {
    /// For a watch that began: each folder is reported by its name, and all are to be checked.
    pub(crate) fn new(alloc: Global) -> Gathering {
        Gathering {
            renames: Renames::new(alloc),
            checks: Checks::all(alloc),
            is_moved: false,
            leaving: None,
            arrived: Vec::new(alloc),
            is_forgotten: false,
            orphans: Orphans::new(alloc),
            folder: String::new(alloc),
            places: Vec::new(alloc),
        }
    }

    /// Adds what is reported of one folder to a batch.
    fn add(
        &mut self,
        alloc: Global,
        batch: &mut Batch,
        told: Told<'_>,
        is_certain: bool,
    ) -> Result<(), Stop> {
        batch.add(alloc, told)?;
        self.checks.add(alloc, told, is_certain)?;
        Ok(())
    }

    /// The places that the name of a folder may stand for. `Doubt` where they are too many.
    pub(crate) fn places(&self, alloc: Global, name: &RelPath) -> Result<Vec<RelPath>, Stop> {
        match self.renames.places(alloc, name)? {
            Some(places) => Ok(places),
            None => Err(Stop::Doubt),
        }
    }

    /// Finds the places that the name of a folder may stand for. A name that is no path is in no view.
    fn find(&mut self, alloc: Global, folder: &str) -> Result<(), Stop> {
        if folder == self.folder.as_str() {
            return Ok(());
        }
        self.places = match RelPath::read(alloc, folder) {
            Ok(path) => self.places(alloc, &path)?,
            Err(Refusal::NoMemory) => return Err(Stop::NoMemory),
            Err(_) => Vec::new(alloc),
        };
        self.folder.clear();
        self.folder.push_str(folder)?;
        Ok(())
    }

    /// Adds what is reported to a batch, for each place of its folder.
    fn add_at_places(
        &mut self,
        alloc: Global,
        batch: &mut Batch,
        told: Told<'_>,
        folder: &str,
    ) -> Result<(), Stop> {
        if folder.is_empty() || !self.renames.are_any() {
            return self.add(alloc, batch, told, true);
        }
        self.find(alloc, folder)?;
        let is_certain = self.places.len() == 1;
        for place in &self.places {
            let told = told.at(place.as_str());
            batch.add(alloc, told)?;
            self.checks.add(alloc, told, is_certain)?;
        }
        Ok(())
    }

    /// Whether a watch may have been lost by a folder that moved. inotifywait keeps its watches if it reports the arrival right
    /// behind the departure.
    pub(crate) fn is_moved(&self) -> bool {
        self.is_moved || self.leaving.is_some()
    }

    /// All folders are to be checked.
    pub(crate) fn check_all(&mut self) {
        self.is_moved = false;
        self.leaving = None;
        self.checks.ask_for_all();
    }

    /// Whether a move is that of the folder of which this watch reported last that it left.
    fn is_arrival(&self, watch: u64, cookie: &[u8]) -> bool {
        match &self.leaving {
            Some((by, word)) => *by == watch && word.as_slice() == cookie,
            None => false,
        }
    }

    /// Notes whether a departure is followed by its arrival at once.
    fn pair_moves(&mut self, alloc: Global, told: Told<'_>, watch: u64) -> Result<(), Stop> {
        let change = match told {
            Told::Entry { change, .. } => change,
            _ => Change::File,
        };
        match change {
            Change::Came(cookie) if self.is_arrival(watch, cookie) => {}
            Change::Came(_) => self.is_moved = true,
            _ => self.is_moved = self.is_moved(),
        }
        self.leaving = match change {
            Change::Left(cookie) => Some((watch, Vec::from_slice(alloc, cookie)?)),
            _ => None,
        };
        Ok(())
    }

    /// Follows a folder that moved. `Doubt` if its names can't be followed any longer.
    fn rename(&mut self, alloc: Global, told: Told<'_>) -> Result<(), Stop> {
        self.folder.clear();
        if self.renames.follow(alloc, told)? {
            Ok(())
        } else {
            Err(Stop::Doubt)
        }
    }

    /// The folder that came by a move of this word before it left.
    fn take_arrival(&mut self, cookie: &[u8]) -> Option<Arrival> {
        let place = self
            .arrived
            .iter()
            .position(|one| one.cookie.as_slice() == cookie)?;
        Some(self.arrived.remove(place))
    }

    /// Keeps a folder that came and didn't leave yet, in place of the one that came first if there are too many.
    fn keep_arrival(
        &mut self,
        alloc: Global,
        cookie: &[u8],
        folder: &str,
        name: &str,
    ) -> Result<(), Stop> {
        if self.arrived.len() >= MAX_WAITING {
            self.arrived.remove(0);
            self.is_forgotten = true;
        }
        self.arrived.push(Arrival {
            cookie: Vec::from_slice(alloc, cookie)?,
            folder: String::from_str(alloc, folder)?,
            name: String::from_str(alloc, name)?,
        })?;
        Ok(())
    }

    /// Follows a folder that left. If it came before, by another inotifywait, it is known now where it is, and its arrival is added once
    /// more. `Doubt` if its arrival may be one that isn't kept any longer.
    fn leave(
        &mut self,
        alloc: Global,
        batch: &mut Batch,
        told: Told<'_>,
        cookie: &[u8],
    ) -> Result<(), Stop> {
        self.rename(alloc, told)?;
        if let Some(arrival) = self.take_arrival(cookie) {
            let came = Told::Entry {
                folder: arrival.folder.as_str(),
                name: arrival.name.as_str(),
                change: Change::Came(cookie),
            };
            self.rename(alloc, came)?;
            return self.add_at_places(alloc, batch, came, arrival.folder.as_str());
        }
        if self.is_forgotten {
            Err(Stop::Doubt)
        } else {
            Ok(())
        }
    }

    /// Follows the folder that moved by a record, if one did.
    fn follow(&mut self, alloc: Global, batch: &mut Batch, told: Told<'_>) -> Result<(), Stop> {
        let Told::Entry {
            folder,
            name,
            change,
        } = told
        else {
            return Ok(());
        };
        match change {
            Change::Left(cookie) => self.leave(alloc, batch, told, cookie),
            Change::Came(cookie) => {
                let has_departed = self.renames.has_departed(cookie);
                self.rename(alloc, told)?;
                if !has_departed {
                    self.keep_arrival(alloc, cookie, folder, name)?;
                }
                Ok(())
            }
            _ => Ok(()),
        }
    }

    /// Adds what a record of a watch reports to a batch. `Doubt` if more may have changed.
    pub(crate) fn take(
        &mut self,
        alloc: Global,
        batch: &mut Batch,
        told: Told<'_>,
        watch: u64,
    ) -> Result<(), Stop> {
        self.pair_moves(alloc, told, watch)?;
        self.follow(alloc, batch, told)?;
        match told {
            Told::Doubt => Err(Stop::Doubt),
            Told::Nothing => Ok(()),
            Told::Entry { folder, .. } | Told::Folder { folder } => {
                self.add_at_places(alloc, batch, told, folder)
            }
        }
    }
}
