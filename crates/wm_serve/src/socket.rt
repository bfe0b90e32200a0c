//! How sessions come in: the socket, who is admitted, and the accept queue.

pub mod accept_queue;
pub mod admission;
pub mod admission_lines;
pub mod server_socket;
pub mod waiting_sessions;
