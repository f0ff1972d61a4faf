//! Hosts: where the variables and numbers of a campaign are kept, read and written bit by bit.
//!
//! A host knows variables and numbers by name number. `Host` says what every host means and answers; `Laid` is
//! one whose variables lie end to end in a row of bits, lent as 64-bit words (`Words`) or as packed bytes
//! (`PackedBytes`); `Window` shows one variable of any host as variables, and is a host again.
//!
//!     let mut words = [0u64; 2];
//!     let host = Laid::new(heap, Words::new(&mut words), &[60, 10], &[3])?;
//!     let mut window = Window::new(host, 1, &[4, 6]);
//!     window.write(1, 0, 6, 0b101101)?;    // bits 4 to 9 of variable 1
//!     window.read(1, 2, 3)                 // Ok(0b011)
//!     window.read(1, 2, 5)                 // refused by 24: the part ends outside
//!
//! Every call takes any input. Places are worked out once, when a host is made: a call then costs the same for
//! the first name and the last, and touches at most two words or nine bytes. A window adds one look into its own
//! table to a read or a write of the host below.
#![tactic(auto)]

mod in_bytes;
mod in_words;
mod interface;
mod laws;
mod laying;
mod reasons;
mod spans;
mod stores;
mod tables;
mod windows;

pub use in_bytes::PackedBytes;
pub use in_words::Words;
pub use interface::Host;
pub use laws::{apart_in_row, apart_in_window, laid_lies_whole};
pub use laying::Laid;
pub use reasons::{Reason, Refusal};
pub use stores::{Exact, Storage};
pub use windows::Window;
