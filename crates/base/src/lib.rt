//! The ground of every crate: lists, budgets and devices.
//!
//! - `Seq` is a list that contracts see as a plain list, so that values made of lists are equal
//!   where their lists are. `Lists` is the same for a list of lists, which lie in one `Vec`.
//! - `Budget` counts the steps that a search may still take. What is spent and what is left are
//!   together what it began with, through every call that takes one (`Spends`).
//! - `Source` and `Sink` are where bytes come from and where they go. A device counts its
//!   failures, so that a caller can say exactly whether one failed in its call.
//! - `Refused` is the witness that the allocator refused a growth. The growing calls (`push`,
//!   `extend`, `filled` and so on) make it, and nothing else can.
//! - `read_all` and `put_all` move whole texts.
#![tactic(auto)]

mod budget;
mod given;
mod grow;
mod lists;
mod refused;
mod seq;
mod sink;
mod source;
mod transfer;

pub use budget::Budget;
pub use grow::{
    boxed, buffered, copied, extend, filled, filled_like, insert, insert_hashed, insert_key, push,
    reserve_one, small,
};
pub use lists::Lists;
pub use refused::Refused;
pub use seq::Seq;
pub use sink::{Sink, ToVec, ToWrite};
pub use source::{Failed, FromBytes, FromRead, Source};
pub use transfer::{ReadAllError, ReadToEndError, put_all, read_all, read_to_end};
