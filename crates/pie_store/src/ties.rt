//! The tasks of records by their numbers.

use pie_graph::TaskNo;
use pie_record::TaskNames;

/// The tasks of records by their numbers, and the numbers of the tasks that each record requires, in order and with repeats.
#[derive(Drop)]
pub struct Ties {
    pub names: TaskNames,
    pub needs: Vec<Vec<TaskNo>>,
}
