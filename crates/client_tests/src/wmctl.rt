//! `wmctl`: its words, its talk, its sync, and the socket.
mod sockets;
mod syncs;
mod systems;
mod talks;
mod words;
