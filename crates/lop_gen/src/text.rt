// The LOLIB text of weights.
ghost use Rattle.std.specs.Prelude.{◌≡◌, ◌<◌, ◌++◌, slice_index_or, [], IfOk, Ok};
ghost use Rattle.lop_lolib.specs.Reading.{lolib_reading};
ghost use Rattle.lop_gen.specs.EntryText.{entry_text};
ghost use Rattle.lop_gen.specs.Text.{row_line, lolib_text, plain_file, HasNarrowDiagonal};

use itoa::Buffer;
use lop_model::Weights;
use std::alloc::{AllocError, Global};

/// The text with n on its first line and then each row on a line, with single blanks. Each entry on the diagonal is at
/// most 10^18 in absolute value, so `read_lolib` reads the same weights back. O(n²).
pub fn lolib_text(alloc: Global, weights: &Weights) -> Result<Vec<u8>, AllocError>
    requires { HasNarrowDiagonal weights.now }
    ensures text { IfOk result (λ text. text.items ≡ lolib_text weights.now) }
    ensures read_back { IfOk result (λ text. lolib_reading text.items ≡ Ok (plain_file weights.now)) }
{
    let mut text = Vec::new(alloc);
    text.extend_from_slice(Buffer::new().format(weights.n()).as_bytes())?;
    text.extend_from_slice(b"\n")?;
    for row in 0..weights.n() {
        push_row(weights, row, &mut text)?;
    }
    Ok(text)
}

// Appends the line of a row.
fn push_row(weights: &Weights, row: u16, text: &mut Vec<u8>) -> Result<(), AllocError>
    requires { row < weights.now.size }
    ensures { IfOk result (λ _. text.new.items ≡ text.old.items ++ row_line (slice_index_or weights.now.rows row [])) }
{
    for column in 0..weights.n() {
        push_entry(weights.at(row, column), column, text)?;
    }
    text.extend_from_slice(b"\n")?;
    Ok(())
}

// Appends an entry, and a blank before it but in the first column.
fn push_entry(entry: i64, column: u16, text: &mut Vec<u8>) -> Result<(), AllocError>
    ensures { IfOk result (λ _. text.new.items ≡ text.old.items ++ entry_text column entry) }
{
    if column > 0 {
        text.extend_from_slice(b" ")?;
    }
    text.extend_from_slice(Buffer::new().format(entry).as_bytes())
}
