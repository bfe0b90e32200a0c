//! The desk: its rows, from as many threads as they name, and a device that fails. What a submit, a flush and a receipt
//! promise stands in their contracts; here is that they succeed, and that the flusher answers what the seats submitted.
mod desks;
mod faults;
mod receipts;
mod rows;
mod seats;
mod sweeps;
