// A lab's file: its lines, the words of a line, and the statement that a line makes.
#![tactic(auto)]

pub mod board;
pub mod cells;
pub mod complaints;
pub mod files;
pub mod lines;
pub mod names;
pub mod numbers;
pub mod parts;
pub mod pieces;
pub mod routes;
pub mod sendings;
pub mod statements;
pub mod targets;
pub mod words;
