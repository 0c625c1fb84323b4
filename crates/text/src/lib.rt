// The bytes that the sheet program prints (document 01, after the examples), put into lent bytes, each behind those before.
#![tactic(auto)]

pub mod line;
pub mod number;
pub mod part;
pub mod put;
pub mod record;
pub mod refusal;
pub mod sheet;
