//! Reading places.
ghost use Rattle.std.specs.Prelude.{◌≡◌, slice_index};

use pie_graph::TaskNo;

// The place of a task, 0 where it has none.
pub(crate) fn place_in(places: &[u32], task: TaskNo) -> u32
    ensures { result ≡ slice_index places.now task.0 }
{
    match places.get(task.0 as usize) {
        Some(place) => *place,
        None => 0,
    }
}
