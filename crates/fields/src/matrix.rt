//! Additive maps of bytes to bytes.
ghost use Rattle.std.specs.Prelude.{◌≡◌};
ghost use Rattle.fields.specs.Matrices.{by_rows, parity};

/// The parity of the ones in `byte` masked by `row`.
fn parity(row: u8, byte: u8) -> u8
    ensures { result ≡ parity row byte }
{
    ((byte & row).count_ones() % 2) as u8
}

/// The image of `byte`: bit i is the parity of the ones in the byte masked by row i.
pub(crate) fn image(rows: &[u8; 8], byte: u8) -> u8
    ensures { result ≡ by_rows rows.now byte }
{
    let mut image = 0;
    for (i, row) in rows.iter().enumerate() {
        image += parity(*row, byte) << i;
    }
    image
}
