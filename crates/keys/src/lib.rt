// One table: document 01, "Key table (house bytes)", and document 02, Ticket 9's of MD5 in the same bytes, with the numbers 10 to 17, the
// searches and the algorithms' fixed numbers. What calls ask of both together is the crate above, `tables`.
// Nobody above this crate slices table bytes or knows how long an entry is: functions take the table's bytes, any bytes, and give values.
#![tactic(auto)]

pub mod algorithm;
pub mod entry;
mod faults;
pub mod matching;
pub mod table;
