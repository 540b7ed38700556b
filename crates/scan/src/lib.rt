//! The toolkit of the readers: what every reader of a text shares.
//!
//! A text is read from left to right. Each step takes the bytes that are left and answers a value
//! and the bytes behind it, or a `Fault`: out of memory, or one of the reader's own refusals with
//! the place where the text is refused. One pass, one byte at a time, and no memory beside the
//! lists that are built; a list grows item by item, whatever count the text states.
//!
//! - `number`, `byte`, `tag`, `field`, `word` read numbers in canonical decimal and the bytes
//!   between them, `signed` a number of an LRAT text, `counts` the counts of an AIGER header. None
//!   of them takes memory, every place is in the text (`place`), and each reports exactly the fault
//!   that its clause `refusal` names.
//! - `lines` reads as many lines of one `LineKind` as a count says, `items` the items of one
//!   `ItemKind` up to their end.
//!
//! What a reader promises is proved in two layers, and neither needs an induction of its own:
//!
//! 1. *Code and function on lists.* Beside each reading function stands a function on lists in
//!    `specs/`, written by the same steps with `do` and `◌>>=◌`, as `field_at` for `field`. The
//!    clause is `Gives view result (field_at ..)`, and the attribute
//!    `#[tactic(auto, unfolding(crate::specs::..::field_at))]` proves it.
//! 2. *Function on lists and relation.* The relation says which texts spell which values, as
//!    `IsField`. `Reads (field_at ..) (IsField ..)` holds both ways: what is read is spelled so,
//!    and what is spelled so is read, whatever follows. It is put together by `reads_then`,
//!    `reads_after`, `reads_if`, `reads_choice`, `reads_number`, `many_reads`, `items_reads` and
//!    `reads_as` as the function is by its steps, from the laws of the pieces (`field_reads`,
//!    `word_reads`, `signed_reads`, `counts_reads`, `skips_tag`).
//!
//! A reader of lines `left right`, its code, its function on lists and its law:
//!
//! ```text
//! #[tactic(auto, unfolding(crate::specs::Pairs::pair_at))]
//! fn one_pair(text: &[u8]) -> Result<(Pair, &[u8]), Fault<PairFault>>
//!     ensures { Gives (λ x. (x.0, x.1.now)) result (pair_at text.now) }
//! {
//!     let (left, rest) = field(text, MOST, b' ', LITERAL)?;
//!     let (right, rest) = field(rest, MOST, b'\n', LITERAL)?;
//!     Ok((Pair { left, right }, rest))
//! }
//!
//! pair_at bytes = do
//!   left ← field_at MOST any 32 bytes
//!   right ← field_at MOST any 10 left.1
//!   Some (record { left = left.0; right = right.0 }, right.1)
//!
//! pair_reads = reads_as IsPair
//!     (reads_then (field_reads MOST any 32 (omega arith) refl) (λ left.
//!      reads_then (field_reads MOST any 10 (omega arith) refl) (λ right.
//!      reads_nothing {A = Pair} (record { left = left; right = right }))))
//!     pair_to pair_from
//! ```
//!
//! Here `pair_to` and `pair_from` regroup the texts of the fields into the line's and back. A reader
//! of whole texts ends by `ended`, and its contract cites `ended_takes` and `ended_again`. By
//! `spells_one` a text spells at most one value.
#![tactic(auto)]

mod bytes;
mod fault;
mod header;
mod item_kind;
mod line_kind;
mod numbers;
mod signs;
mod words;

pub use bytes::{byte, tag};
pub use fault::{Fault, Kinds, place};
pub use header::counts;
pub use item_kind::{ItemKind, items, items_into};
pub use line_kind::{LineKind, lines, lines_into};
pub use numbers::number;
pub use signs::signed;
pub use words::{field, word};
