// The text rules: characters by Unicode, lines, the place of a byte, quotes, trimming, words, numbers, and the two kinds that they count.
#![tactic(auto)]

pub mod blank;
mod blocks;
pub mod find;
pub mod number;
pub mod sector;
pub mod utf8;
mod valid;
pub mod words;
