//! An interning pool: it gives each key a number, counted from 0 by first insertion, and keeps marks beside it.
//!
//! A pool owns no memory. It works over a slice of entries that is lent to it, and its keys over slices of parts that are lent with each
//! call. So one pool, proved once for every `Key`, serves keys with parts of any length and keys with none.
//!
//!     let mut pool: Pool<Name, u8> = Pool::new(&mut entries);
//!     let a = pool.insert(bytes, first, 1);    // number 0, marks 1
//!     let b = pool.insert(bytes, second, 2);   // number 1, marks 2
//!     let c = pool.insert(bytes, first, 3);    // number 0 again, and its marks stay 1
//!
//! - What a key means is a matter of the parts that it stands over, and two keys are equal where they mean the same. `Key` says what its
//!   keys mean and orders that.
//! - What the pool holds is the list of the first occurrences of the keys that were inserted, in order. A key's number is its index there.
//! - `find` and `insert` compare about log2 of the entries times: entry n also holds the number of the key that has n smaller ones in the
//!   pool. The insertion of an unknown key moves the numbers of the larger keys one entry up.
//! - Room is the caller's matter: the insertion of an unknown key requires a free entry, and room for its parts where they are stored.
#![tactic(auto)]

mod entry;
mod find;
mod insert;
mod key;
mod lent;
mod lookup;
mod marks;
mod numbers;
mod parts;
mod pool;
mod reads;
mod runs;
mod series;
mod slot;
mod store;
#[cfg(test)]
mod tests;
mod words;

pub use entry::Entry;
pub use key::{Key, Number};
pub use lookup::find_in;
pub use numbers::{PBind, PCWidth, PVal, PWidth};
pub use parts::Parts;
pub use pool::Pool;
pub use runs::{Letter, Run, Word};
pub use words::stretch;
