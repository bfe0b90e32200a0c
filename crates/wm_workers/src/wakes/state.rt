//! Whether the thread that sends a session the lines that are due is to be woken.
//! Definitions: specs/WakeFlags.antt. Tests: serve_tests/src/sessions.rt.
ghost use Rattle.std.specs.Prelude.{◌≡◌, ◌&&◌, ◌^◌, ◌%◌, false};
ghost use Rattle.wm_workers.specs.SubscribedRoots.{with_bit as with_bit_lem};
ghost use Rattle.wm_workers.specs.WakeFlags.{closed_flag, has_common as has_common_lem, has_more as has_more_lem, is_clear as is_clear_lem, is_not_closed, noted_flag, notified_flag, set_wake, taken_flag};

/// What the thread finds when it wakes.
#[derive(Clone, Copy, Debug, PartialEq, Eq)]
pub enum Wake {
    /// Nothing is due that it hasn't seen.
    Clear,
    /// Lines may be due.
    Set,
    /// The server closes.
    Closed,
}

/// What the thread finds, and the roots that its session has subscriptions on, as [`bit_of`] each: no line of another root is ever due.
#[derive(Drop)]
pub struct WakeState {
    wake: Wake,
    roots: u64,
}

/// The bit of a root among the 64 of a flag, by its number: another root may have the same, and then a thread is woken for nothing.
pub fn bit_of(number: u64) -> u64
    ensures { result ≡ 2 ^ (number % 64) }
{
    1u64 << (number % 64)
}

/// Beside these bits that of the root of a number, if it has one.
pub fn with_bit(roots: u64, number: Option<u64>) -> u64
    ensures { result ≡ with_bit_lem roots number }
{
    match number {
        Some(number) => roots | bit_of(number),
        None => roots,
    }
}

/// Whether the bit of a root is in both.
fn has_common(roots: u64, others: u64) -> bool
    ensures { result ≡ has_common_lem roots others }
{
    roots & others != 0
}

/// Whether the bit of a root is in the new ones that wasn't in those before.
fn has_more(before: u64, roots: u64) -> bool
    ensures { result ≡ has_more_lem before roots }
{
    before | roots != before
}

impl WakeState {
    /// Of a session without subscriptions.
    pub fn new() -> WakeState
        ensures { result ≡ record { wake = Wake.Clear; roots = 0 } }
    {
        WakeState {
            wake: Wake::Clear,
            roots: 0,
        }
    }

    /// Whether the thread has to wait.
    pub fn is_clear(&self) -> bool
        ensures { result ≡ is_clear_lem self.now.wake }
    {
        matches!(self.wake, Wake::Clear)
    }

    /// Lines may be due: whether the thread is to be woken.
    fn set(&mut self) -> bool
        ensures wakes { result ≡ is_clear_lem self.old.wake }
        ensures new { self.new ≡ record self.old { wake = set_wake self.old.wake } }
    {
        let is_new = self.is_clear();
        if is_new {
            self.wake = Wake::Set;
        }
        is_new
    }

    /// These roots have changed, and lines may be due if the session has a subscription on one of them: whether the thread is to be woken.
    pub fn notify(&mut self, roots: u64) -> bool
        ensures wakes { result ≡ (has_common_lem self.old.roots roots && is_clear_lem self.old.wake) }
        ensures new { self.new ≡ notified_flag roots self.old }
    {
        has_common(self.roots, roots) && self.set()
    }

    /// The session has subscriptions on these roots: whether the thread is to be woken. What changed of a root before its first
    /// subscription stood here may be due to that.
    pub fn note(&mut self, roots: u64) -> bool
        ensures wakes { result ≡ (has_more_lem self.old.roots roots && is_clear_lem self.old.wake) }
        ensures new { self.new ≡ noted_flag roots self.old }
    {
        let is_more = has_more(self.roots, roots);
        self.roots = roots;
        is_more && self.set()
    }

    /// The server closes.
    pub fn close(&mut self)
        ensures { self.new ≡ closed_flag self.old }
    {
        self.wake = Wake::Closed;
    }

    /// The thread looks, once lines may be due or the server closes: whether it goes on.
    pub fn take(&mut self) -> bool
        requires { is_clear_lem self.old.wake ≡ false }
        ensures goes_on { result ≡ is_not_closed self.old.wake }
        ensures new { self.new ≡ taken_flag self.old }
    {
        if matches!(self.wake, Wake::Closed) {
            return false;
        }
        self.wake = Wake::Clear;
        true
    }
}
