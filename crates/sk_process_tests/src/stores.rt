//! The stores, and what forks, signals, ends and waits do over each: rows that hold for every store, and what only the
//! one in slots tells.
mod keeping;
mod rows;
mod slots;
mod testing;
