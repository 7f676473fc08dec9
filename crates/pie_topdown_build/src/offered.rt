//! What a build with offers answers.

use pie_report::Report;
use pie_store::Offer;
use pie_value::Task;

/// A record of a task that ran, as later builds may be offered it.
#[derive(Drop)]
pub struct NewOffer {
    /// The present digest of the task's function.
    pub digest: [u8; 32],
    pub offer: Offer,
}

/// What a build with offers did.
#[derive(Drop)]
pub struct Offered {
    pub report: Box<Report>,
    /// The tasks whose offered records were kept, in the order of their canonical bytes.
    pub reused: Vec<Task>,
    /// Of an accepted build, the records of the live tasks that ran, in store order.
    pub new: Vec<NewOffer>,
}
