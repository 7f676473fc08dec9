//! How large the type of a name may be.
ghost use Rattle.std.specs.Prelude.{◌≤◌, IfSome};

use pie_value::Ty;

/// The most parts of the type of a name, itself included: as many types as stand in it when it is written out.
/// Names make types grow without brackets, to any depth and twice as large with each pair, as in
/// `val b = (a, a); val c = (b, b);`. A larger one is answered as out of memory.
pub const MAX_TYPE_PARTS: u32 = 1_000;

// What is left of so much room after a type, if it has room.
#[cycle(room)]
pub fn room_after(ty: &Ty, room: u32) -> Option<u32>
    ensures { IfSome result (λ left. left ≤ room) }
{
    if room == 0 {
        return None;
    }
    match ty {
        Ty::List(part) => room_after(part.get(), room - 1),
        Ty::Nullable(part) => room_after(part.get(), room - 1),
        Ty::Tuple(parts) => room_after_each(parts.as_slice(), room - 1),
        _ => Some(room - 1),
    }
}

// What is left after some types.
#[cycle(room)]
fn room_after_each(types: &[Ty], room: u32) -> Option<u32>
    ensures { IfSome result (λ left. left ≤ room) }
{
    let mut left = room;
    for ty in types {
        left = room_after(ty, left)?;
    }
    Some(left)
}
