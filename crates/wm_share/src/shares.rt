//! What makes the shares of a process.
//! Definitions: specs/PublishedLists.antt, specs/Rules.antt. Tests: view_tests/src/shared/shares.rt.
ghost use Rattle.std.specs.Prelude.{◌≡◌, ◌+◌, ◌-◌, [], IfOk, IfErr, ◌⊎◌};
ghost use Rattle.left_right.specs.Handles.{published, pending};
ghost use Rattle.wm_share.specs.Logs.{max_shares};
ghost use Rattle.wm_share.specs.PublishedLists.{empty_list};

use crate::book::{Empty, Law, Naming};
use crate::entry::Entry;
use crate::front::{Front, Head};
use crate::keeper::{Listed, RootKeeper};
use crate::pool::{MAX_VIEWERS, Pool};
use crate::share_id::ShareId;
use crate::shown::Shown;
use crate::step::Step;
use crate::viewer::Viewer;
use left_right::WriteHandle;
use logbook::{Pens, Seen, Start, Word};
use std::alloc::Global;
use std::marker::{Model, PhantomData};
use std::sync::Wait;
use wm_disk::{MAX_COUNTER, Refusal};

/// The book of a process that has no name yet.
#[derive(Drop)]
pub struct Opened {
    pens: Pens,
    seen: Seen<Entry, u64, Law>,
    pub ghost empty: { seen.log ≡ [] },
    pub ghost pens_are: { (pens.book ≡ seen.book) × (pens.next ≡ 0) × (pens.left ≡ max_shares) },
}

impl Opened {
    /// A book in which nothing was handed in.
    pub fn new() -> Opened {
        Opened::with_words(MAX_COUNTER as usize)
    }

    /// A book of so many words.
    #[tactic(auto, using(crate::proofs::Adding::opens))]
    fn with_words(words: usize) -> Opened
        requires { words ≡ max_shares }
    {
        let (seen, pens) = Seen::open_row::<u64, Empty>(&0, Start::alone(), words);
        Opened { pens, seen }
    }
}

/// What makes the shares of a process. Contracts see how many numbers of shares it used up.
#[derive(Drop)]
pub struct Shares<J: Naming> {
    made: u64,
    pens: Pens,
    seen: Seen<Entry, u64, Law>,
    of: PhantomData<J>,
}

impl<J: Naming> Model for Shares<J> {
    ghost use Rattle.std.specs.Prelude.{◌≡◌, ◌+◌, ℕ, []};
    ghost use Rattle.wm_share.specs.Logs.{max_shares};

    ghost Value = { ℕ };

    ghost view = { λ s. s.made };

    ghost invariant = { λ s. (s.seen.log ≡ []) × (s.seen.book ≡ J.book) × (s.pens.book ≡ J.book) × (s.pens.next ≡ s.made) × (s.pens.next + s.pens.left ≡ max_shares) };
}

impl<J: Naming> Shares<J> {
    /// Names the book.
    pub fn new(opened: Opened) -> Shares<J>
        requires { opened.seen.book ≡ J.book }
        ensures { result ≡ 0 }
    {
        let Opened { pens, seen } = opened;
        Shares {
            made: 0,
            pens,
            seen,
            of: PhantomData,
        }
    }
    /// The beginning of a new share's list, and the share's word. `Exhausted` where 2^63 - 1 numbers are used up.
    fn next(&mut self, incarnation: u64, root: u64) -> Result<(Front<J>, Head<J>), Refusal>
        ensures ok { IfOk result (λ s. (s.0 ≡ empty_list (record { number = self.old; incarnation = incarnation; root = root })) × (s.1.number ≡ self.old) × (self.new ≡ self.old + 1)) }
        ensures err { IfErr result (λ e. (e ≡ Refusal.Exhausted) × (self.old ≡ max_shares) × (self.new ≡ self.old)) }
    {
        if self.made >= MAX_COUNTER {
            return Err(Refusal::Exhausted);
        }
        let share = ShareId {
            number: self.made,
            incarnation,
            root,
        };
        let mut pen = self.pens.take();
        let head = Head {
            word: Word::tracked(0, &mut pen),
            number: self.made,
            of: PhantomData,
        };
        self.made += 1;
        Ok((Front::new(share, self.seen.again()), head))
    }

    /// A keeper and its viewers, over two new views of the root; where memory is short, fewer viewers than
    /// [`MAX_VIEWERS`]. `NoMemory`, which uses up a share's number, and `Exhausted` if 2^63 - 1 of these are
    /// used up.
    pub fn share<R: Wait + Drop>(
        &mut self,
        rt: R,
        alloc: Global,
        incarnation: u64,
        root: u64,
    ) -> Result<(RootKeeper<J, Shown<J>, R>, Pool<J>), Refusal>
        ensures published { IfOk result (λ s. (s.0.published ≡ empty_list (record { number = self.old; incarnation = incarnation; root = root })) × (s.0.pending ≡ [])) }
        ensures viewers { IfOk result (λ s. s.1.share ≡ s.0.published.share) }
        ensures refused { IfErr result (λ e. ((e ≡ Refusal.NoMemory) × (self.new ≡ self.old + 1)) ⊎ ((e ≡ Refusal.Exhausted) × (self.old ≡ max_shares) × (self.new ≡ self.old))) }
        ensures made { IfOk result (λ _. self.new ≡ self.old + 1) }
    {
        let (front, head) = self.next(incarnation, root)?;
        let mut pool = Pool::with_room(alloc, front.share())?;
        let first = Shown::new(alloc, front.again());
        let second = Shown::new(alloc, front.again());
        let desk = desk_over(rt, alloc, first, second)?;
        fill(&mut pool, &desk, &front);
        let keeper = RootKeeper {
            desk,
            head,
            front,
            held: None,
        };
        Ok((keeper, pool))
    }
}

/// A writer over two copies of a new view.
fn desk_over<J: Naming, T: Listed<J> + Drop, R: Wait + Drop>(
    rt: R,
    alloc: Global,
    first: T,
    second: T,
) -> Result<WriteHandle<T, Step<J>, R>, Refusal>
    requires { T.state first ≡ T.state second }
    ensures ok { IfOk result (λ w. (T.state (published w) ≡ T.state first) × (pending w ≡ [])) }
    ensures err { IfErr result (λ e. e ≡ Refusal.NoMemory) }
{
    match WriteHandle::new(alloc, rt, first, second, MAX_VIEWERS) {
        Ok(desk) => Ok(desk),
        Err(_) => Err(Refusal::NoMemory),
    }
}

/// Puts in the viewers that can be had.
fn fill<J: Naming, R: Wait + Drop>(
    pool: &mut Pool<J>,
    desk: &WriteHandle<Shown<J>, Step<J>, R>,
    front: &Front<J>,
)
    requires { pool.old.share ≡ front.now.share }
    ensures { pool.new.share ≡ front.now.share }
{
    for _ in 0..MAX_VIEWERS {
        let Ok(reader) = desk.handle() else {
            break;
        };
        pool.give(Viewer::new(reader, front.again()));
    }
}
