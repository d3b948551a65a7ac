//! That a row is read as it is written.
ghost use Rattle.std.specs.Prelude.{◌≡◌, ℕ, ◌+◌, ◌≤◌, List, length};
ghost use Rattle.layout.specs.Sizes.{descriptor};
ghost use Rattle.rows.specs.Row.{Row, size};
ghost use Rattle.row_bytes.specs.Rows.{HoldsRow, header, number_in, put_in, key_length_in, value_length_in, key_in, value_in, row_in, links_in, without_links};

/// Where a row stands in a content, the content is read as this row, and as no other; with its descriptor it has
/// the row's size.
pub fn a_row_is_read_as_it_is_written()
    ensures row { (content : List ℕ) (number : ℕ) (row : Row) → HoldsRow content number row → row_in content ≡ row }
    ensures links { (content : List ℕ) (number : ℕ) (row : Row) (holds : HoldsRow content number row)
        → links_in content ≡ holds.links }
    ensures others { (content : List ℕ) (number : ℕ) (row : Row) → HoldsRow content number row
        → row_in (without_links content) ≡ row }
    ensures number { (content : List ℕ) (number : ℕ) (row : Row) → HoldsRow content number row → number_in content ≡ number }
    ensures size { (content : List ℕ) (number : ℕ) (row : Row) → HoldsRow content number row
        → length content + descriptor ≡ size row.key.bytes row.value }
    ensures lengths { (content : List ℕ) (number : ℕ) (row : Row) → HoldsRow content number row
        → (key_length_in content ≡ length row.key.bytes) × (value_length_in content ≡ length row.value) }
    ensures within { (content : List ℕ) (number : ℕ) (row : Row) → HoldsRow content number row
        → header + key_length_in content + value_length_in content ≤ length content }
{}
