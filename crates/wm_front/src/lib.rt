//! What a session needs of a server: a front over a desk and watched roots that sessions share.
//!
//! [`SharedFront`] is the front of one session among many. A command goes to the desk ([`Registrar`]) from the session's own seat, an
//! operation to the keeper of its root, and a question to the session's own viewer of it. Nothing here starts a thread or opens a socket.
#![tactic(auto)]

mod desk_seat;
mod ended;
mod moments;
mod registrar;
mod roots;
mod shared_front;
mod viewers;

pub use desk_seat::DeskSeat;
pub use ended::{drop_ended, end_subscriptions};
pub use registrar::Registrar;
pub use roots::Roots;
pub use shared_front::SharedFront;
pub use viewers::Viewers;
