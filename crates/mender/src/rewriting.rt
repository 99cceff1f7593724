// The new table, written from its last row down. The run of old rows is the list of work: a row puts the rows of its parts at the last
// places of theirs.

ghost use Rattle.std.specs.Prelude.{◌≡◌, ◌++◌, map, ◌*◌, ◌-◌, pos, length};
ghost use Rattle.script.specs.Generated.{zeros};
ghost use Rattle.rows.specs.Patterns.{patterns};
ghost use Rattle.mending.specs.Copies.{origins as Copies·origins};
ghost use Rattle.mending.specs.NewTable.{new_table};
ghost use Rattle.mender.specs.FieldWriting.{FieldRoom, FieldWritten, field};
ghost use Rattle.mender.specs.RowWriting.{RowReady, RowWritten};
ghost use Rattle.mender.specs.TableWritten.{TableReady};

// Writes a field of a new row at word `to`, where the part of a link starts at new row `lo`; gives where the next part starts. What is
// lent stays parameters: `FieldWritten` says of each run alone what it was and is.
fn write_field(
    letter: u8,
    word: i32,
    sizes: &[u16; 2048],
    latest: &[u16; 2048],
    lo: usize,
    to: usize,
    new: &mut [i32],
    origins: &mut [i32],
) -> usize
    requires { FieldRoom sizes.now latest.now lo (field letter word) to (length new.old) (length origins.old) }
    ensures { FieldWritten sizes.now latest.now lo (field letter word) to new.old origins.old result new.new origins.new }
{
    let n = script::field_number(word);
    if letter < b'_' {
        let end = lo + sizes[n] as usize;
        new[to] = (end - 1) as i32;
        origins[end - 1] = n as i32;
        return end;
    }
    if letter == b'l' {
        new[to] = latest[n] as i32;
    } else {
        new[to] = word;
    }
    lo
}

// Writes new row k, a copy of row r, and puts the rows of its parts.
fn write_row(
    table: &[i32],
    kinds: &[u8; 196],
    sizes: &[u16; 2048],
    latest: &[u16; 2048],
    k: usize,
    r: usize,
    new: &mut [i32],
    origins: &mut [i32],
)
    requires { RowReady table.now sizes.now latest.now k r (length new.old) (length origins.old) × (kinds.now ≡ patterns) }
    ensures { RowWritten table.now latest.now k r new.old origins.old new.new origins.new }
{
    let of = 4 * script::field(table, r, 0);
    let from = 4 * r;
    let to = 4 * k;
    new[to] = table[from];
    let first = k + 1 - sizes[r] as usize;
    let second = write_field(
        kinds[of + 1],
        table[from + 1],
        sizes,
        latest,
        first,
        to + 1,
        new,
        origins,
    );
    let third = write_field(
        kinds[of + 2],
        table[from + 2],
        sizes,
        latest,
        second,
        to + 2,
        new,
        origins,
    );
    write_field(
        kinds[of + 3],
        table[from + 3],
        sizes,
        latest,
        third,
        to + 3,
        new,
        origins,
    );
}

// Writes the new table, of so many rows, and the old row of each.
pub fn write_table(
    table: &[i32],
    sizes: &[u16; 2048],
    total: usize,
    new: &mut [i32],
    origins: &mut [i32],
)
    requires { TableReady table.now sizes.now total new.old origins.old }
    ensures table { new.new ≡ new_table table.now ++ zeros (length new.old - 4 * total) }
    ensures origins { origins.new ≡ map pos (Copies·origins table.now) ++ zeros (length origins.old - total) }
{
    let kinds = rows::kinds();
    let mut latest: [u16; 2048] = [0; 2048];
    origins[total - 1] = (script::row_count(table) - 1) as i32;
    for k in (0..total).rev() {
        let r = script::field_number(origins[k]);
        write_row(table, &kinds, sizes, &latest, k, r, new, origins);
        latest[r] = k as u16;
    }
}
