//! The model of a root beside its folder: what its view is after each report of a client, and after a crawl.
use std::alloc::Global;
use std::process::Abort;
use wm_disk::Refusal;

/// How many paths there are.
pub const PATHS: usize = 5;

/// The paths, in the order of their bytes. `d` is a folder that stays, and each other one is a file, or nothing.
pub static POOL: [&str; PATHS] = ["a", "b", "d", "d/a", "d/b"];

/// The size of the file at a path, if one is there.
pub type State = Option<u64>;

/// What was seen at each path that was looked at.
pub type Seen = [Option<State>; PATHS];

/// Nothing was looked at.
pub const UNSEEN: Seen = [None; PATHS];

/// How a client last reported a path while a crawl read.
#[derive(Clone, Copy, PartialEq)]
pub enum Report {
    /// It was observed as it stood in the view already.
    Observed,
    /// An observation changed it.
    Changed,
    /// A listing changed it.
    Listed,
}

/// One path.
#[derive(Clone, Copy)]
pub struct Place {
    /// In the folder.
    pub folder: State,
    /// In the view.
    pub view: State,
    /// The tick of the last change in the view; 0 if there was none.
    changed: u64,
    /// What the crawl that is under way read there.
    pub read: State,
    /// Whether the folder changed there since the crawl was asked for.
    has_moved: bool,
    /// How it was reported last since the crawl was asked for.
    report: Option<Report>,
}

/// The paths, and where the view stands.
#[derive(Drop)]
pub struct RootModel {
    places: [Place; PATHS],
    tick: u64,
    floor: u64,
    /// The tick at which the crawl that is under way was asked for.
    begun_at: u64,
}

/// Whether the path stands in the part: the whole root, or what is below `d`.
pub fn covers(is_whole: bool, path: usize) -> bool {
    is_whole || path > 2
}

impl Place {
    fn new() -> Place {
        Place {
            folder: None,
            view: None,
            changed: 0,
            read: None,
            has_moved: false,
            report: None,
        }
    }

    /// The view has this state from the next tick on. Whether it had another.
    fn becomes(&mut self, state: State, next: u64) -> bool {
        if self.view == state {
            return false;
        }
        self.view = state;
        self.changed = next;
        true
    }

    fn observe(&mut self, state: State, next: u64) -> bool {
        let differs = self.becomes(state, next);
        self.report = Some(if differs {
            Report::Changed
        } else {
            Report::Observed
        });
        differs
    }

    /// A listing speaks of it unless it changed since the listing's tick.
    fn list(&mut self, state: State, begun_at: u64, next: u64) -> bool {
        if self.changed > begun_at || !self.becomes(state, next) {
            return false;
        }
        self.report = Some(Report::Listed);
        true
    }

    /// A crawl keeps what was reported since it was asked for, and of all else what it read counts.
    fn recrawl(&mut self, next: u64) -> bool {
        self.report.is_none() && self.becomes(self.read, next)
    }
}

impl RootModel {
    /// A root whose folder has `d` alone, and that wasn't crawled yet.
    pub fn new() -> RootModel {
        let mut root = RootModel {
            places: [Place::new(); PATHS],
            tick: 0,
            floor: 0,
            begun_at: 0,
        };
        root.change_folder(2, Some(0));
        root
    }

    pub fn tick(&self) -> u64 {
        self.tick
    }

    pub fn floor(&self) -> u64 {
        self.floor
    }

    /// What is in the folder at the path.
    pub fn folder(&self, path: usize) -> State {
        match self.places.get(path) {
            Some(place) => place.folder,
            None => None,
        }
    }

    pub fn change_folder(&mut self, path: usize, state: State) {
        if let Some(place) = self.places.get_mut(path)
            && place.folder != state
        {
            place.folder = state;
            place.has_moved = true;
        }
    }

    /// The crawl that is under way read this at the path.
    pub fn read(&mut self, path: usize, state: State) {
        if let Some(place) = self.places.get_mut(path) {
            place.read = state;
        }
    }

    /// A crawl is asked for.
    pub fn begin(&mut self) {
        self.begun_at = self.tick;
        for place in &mut self.places {
            place.read = None;
            place.has_moved = false;
            place.report = None;
        }
    }

    /// Adds a tick if the view differs, or is the first.
    fn count(&mut self, differs: bool) {
        if differs || self.tick == 0 {
            self.tick = self.tick.saturating_add(1);
        }
    }

    /// Whether a listing may come that began at a tick.
    fn may_list(&self, is_whole: bool, begun_at: u64) -> Result<(), Refusal> {
        if self.tick == 0 && !(is_whole && begun_at == 0) {
            return Err(Refusal::NotReady);
        }
        if begun_at < self.floor || self.tick < begun_at {
            return Err(Refusal::BadClock);
        }
        Ok(())
    }

    pub fn observe(&mut self, seen: &Seen) -> Result<(), Refusal> {
        if self.tick == 0 {
            return Err(Refusal::NotReady);
        }
        let next = self.tick.saturating_add(1);
        let mut differs = false;
        for (place, state) in self.places.iter_mut().zip(seen) {
            if let Some(state) = state {
                differs |= place.observe(*state, next);
            }
        }
        self.count(differs);
        Ok(())
    }

    pub fn list(&mut self, is_whole: bool, begun_at: u64, seen: &Seen) -> Result<(), Refusal> {
        self.may_list(is_whole, begun_at)?;
        let next = self.tick.saturating_add(1);
        let mut differs = false;
        for (place, state) in self.places.iter_mut().zip(seen) {
            if let Some(state) = state {
                differs |= place.list(*state, begun_at, next);
            }
        }
        self.count(differs);
        Ok(())
    }

    /// All that is gone is forgotten.
    pub fn age_out(&mut self) -> Result<(), Refusal> {
        if self.tick == 0 {
            return Err(Refusal::NotReady);
        }
        for place in &self.places {
            if place.view.is_none() {
                self.floor = self.floor.max(place.changed);
            }
        }
        Ok(())
    }

    /// The crawl of a part ends that was asked for last.
    pub fn recrawl(&mut self, is_whole: bool) -> Result<(), Refusal> {
        self.may_list(is_whole, self.begun_at)?;
        let next = self.tick.saturating_add(1);
        let mut differs = false;
        for (path, place) in self.places.iter_mut().enumerate() {
            if covers(is_whole, path) {
                differs |= place.recrawl(next);
            }
        }
        self.count(differs);
        Ok(())
    }

    /// How often a path in the part that changed last before the crawl was asked for isn't as in the folder, though it was
    /// reported so last; with no report, how often it isn't at all.
    pub fn stale(&self, is_whole: bool, report: Option<Report>) -> u64 {
        let mut count: u64 = 0;
        for (path, place) in self.places.iter().enumerate() {
            let is_stale = !place.has_moved && place.view != place.folder;
            if covers(is_whole, path) && is_stale && place.report == report {
                count = count.saturating_add(1);
            }
        }
        count
    }

    /// The files of one tick, behind what stands in the text.
    fn put_files(&self, rt: &impl Abort, alloc: Global, tick: u64, text: &mut String) {
        for (path, place) in POOL.iter().zip(&self.places) {
            if let Some(size) = place.view
                && place.changed == tick
            {
                let comma = if text.as_str().ends_with("[") {
                    ""
                } else {
                    ","
                };
                let file = format!(in alloc; "{comma}{{\"name\":\"{path}\",\"size\":{size}}}");
                text.push_str(file.expect(rt, "memory").as_str())
                    .expect(rt, "memory");
            }
        }
    }

    /// The answer to a question about all names and sizes.
    pub fn answer(&self, rt: &impl Abort, alloc: Global) -> String {
        let tick = self.tick;
        let mut text = format!(in alloc; "{{\"clock\":\"c:1:5:{tick}\",\"files\":[").expect(
            rt, "memory",
        );
        for tick in (1..=tick).rev() {
            self.put_files(rt, alloc, tick, &mut text);
        }
        let end = "],\"is_fresh_instance\":true,\"version\":\"w1\"}\n";
        text.push_str(end).expect(rt, "memory");
        text
    }
}
