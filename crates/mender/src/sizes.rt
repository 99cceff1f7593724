// 14: how many new rows one use of each row takes, counted upward and no further than 2,049.

ghost use Rattle.std.specs.Prelude.{◌≡◌, ◌<◌, min, length};
ghost use Rattle.script.specs.Rows.{field_number, rows, word};
ghost use Rattle.rows.specs.Patterns.{patterns};
ghost use Rattle.mending.specs.Copies.{cap, size};
ghost use Rattle.mender.specs.Checked.{Checked, FieldAt, letter_at};
ghost use Rattle.mender.specs.Sizing.{PartSized, Sizings};
ghost use Rattle.mender.specs.Sizing.{part_size as Sizing·part-size};

// The size of what field i of row r links to, or 0; `of` is where the letters of the row's kind stand.
fn part_size(
    table: &[i32],
    kinds: &[u8; 196],
    r: usize,
    of: usize,
    i: usize,
    sizes: &[u16; 2048],
) -> usize
    requires { FieldAt table.now kinds.now r of i × (letter_at of i < 95 → PartSized sizes.now (field_number (word table.now r i))) }
    ensures { result ≡ Sizing·part-size sizes.now (letter_at of i) (field_number (word table.now r i)) }
{
    if kinds[of + i] < b'_' {
        sizes[script::field(table, r, i)] as usize
    } else {
        0
    }
}

// The size of row r, from those of the rows below it.
fn row_size(table: &[i32], kinds: &[u8; 196], r: usize, sizes: &[u16; 2048]) -> usize
    requires { Checked table.now × ((r < rows table.now) × (Sizings table.now r sizes.now × (kinds.now ≡ patterns))) }
    ensures { result ≡ min cap (size table.now r) }
{
    let of = 4 * script::field(table, r, 0);
    let a = part_size(table, kinds, r, of, 1, sizes);
    let b = part_size(table, kinds, r, of, 2, sizes);
    let c = part_size(table, kinds, r, of, 3, sizes);
    (a + b + c + 1).min(2049)
}

// The sizes of all rows.
pub fn count(table: &[i32], sizes: &mut [u16; 2048])
    requires { Checked table.now × (length sizes.old ≡ 2048) }
    ensures { Sizings table.now (rows table.now) sizes.new }
{
    let kinds = rows::kinds();
    for r in 0..script::row_count(table) {
        sizes[r] = row_size(table, &kinds, r, sizes) as u16;
    }
}
