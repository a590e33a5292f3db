// Bytes and decimal numbers, put into a buffer that the caller lends.
#![tactic(auto)]

pub mod put;
