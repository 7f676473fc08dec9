//! The store: the text of what a build keeps for the next one, and the text of pending names.
#![tactic(auto)]

mod cause;
mod decoding;
mod frame;
mod image;
mod known;
mod lookups;
mod offers;
mod pending;
mod ranked;
mod reading;
mod sharing;
mod store_fault;
mod ties;
mod writer;

pub use cause::Cause;
pub use decoding::decode_store;
pub use image::{Funcs, Rows, StoreImage};
pub use offers::{NoOffers, Offer, Offers};
pub use pending::{pending_text, read_pending};
pub use store_fault::StoreFault;
pub use ties::Ties;
pub use writer::{encode_store, encode_store_after};
