//! Where the cells of a deployment are, and how far each is: a table of frames and lines.
//!
//! A frame is a scope that is there. A line is a cell, by the number of its frame, with how far it is. An index finds
//! the line of a cell. Contracts see the frames by `specs/Opened`, the lines by `specs/Lines`, and `specs/Laid` says
//! how they lie. A value that a cell gets opens others: `Table::fill` lists their lines, and opens the frame of a
//! scope, unless there are too many instances.
#![tactic(auto)]

pub mod begun;
pub mod counting;
pub mod filled;
pub mod frame;
pub mod keys;
pub mod line;
pub mod listed;
pub mod listing;
pub mod lookup;
pub mod marks;
pub mod spots;
pub mod table;
