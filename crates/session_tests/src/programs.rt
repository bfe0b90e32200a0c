//! The program as its main calls it: its words, its files, and its calls from end to end.
mod calls;
mod files;
mod migrations;
mod owners;
mod read_only;
mod second_reader;
mod words;
