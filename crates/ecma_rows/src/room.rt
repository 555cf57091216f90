//! Room that the caller gives for rows.
ghost use Rattle.std.specs.Prelude.{◌≡◌, ◌++◌, ◌∷◌, [], List, length};
ghost use Rattle.ecma_rows.specs.Told.{written};

/// Writes a row behind those that were written to the room before it, so many, if there is room for it.
pub(crate) fn put<R: Copy>(room: &mut [R], count: usize, row: R)
    ensures { (rows before : List R) → count ≡ length rows → room.old ≡ written rows before → room.new ≡ written (rows ++ row ∷ []) before }
{
    if count < room.len() {
        room[count] = row;
    }
}

/// Writes rows to the room, in order, as many as fit.
pub(crate) fn write_all<R: Copy>(rows: &[R], room: &mut [R])
    ensures { room.new ≡ written rows.now room.old }
{
    let mut count = 0;
    for row in rows {
        put(room, count, *row);
        count += 1;
    }
}
