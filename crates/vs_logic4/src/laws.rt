//! Laws of vectors, each the contract of a function that does nothing.
ghost use Rattle.std.specs.Prelude.{◌≡◌, ℕ, ◌+◌, ◌%◌, ◌^◌, ◌<◌, ◌≤◌, ◌⊎◌, ℤ, pos, ◌-ℤ◌, Bool, List, length, slice_get, slice_index_or, IsTrue};
ghost use Rattle.vs_logic4.specs.declared.digit.Digit.{Digit};
ghost use Rattle.vs_logic4.specs.declared.digit.Digit.TheVariants.{X};
ghost use Rattle.vs_logic4.specs.Vectors.{of_number, resized};
ghost use Rattle.vs_logic4.specs.Comparisons.{is_known};
ghost use Rattle.vs_logic4.specs.Arithmetic.{number, integer, of_integer};
ghost use Rattle.vs_logic4.specs.Parts.{digit_at, selected, with_part};

/// Two vectors with the same digits are equal.
pub fn same_digits_make_equal()
    ensures { (ds es : List Digit) → length ds ≡ length es
        → ((k : ℕ) → k < length ds → slice_get ds k ≡ slice_get es k) → ds ≡ es }
{}

/// To resize a vector to its own width changes nothing.
pub fn resize_to_own_width()
    ensures { (signed : Bool) (ds : List Digit) → resized signed (length ds) ds ≡ ds }
{}

/// What was put into a vector, all in range, is what is then selected there; a digit elsewhere stays.
pub fn select_after_put()
    ensures inside { (low : ℕ) (part ds : List Digit) → low + length part ≤ length ds
        → selected (pos low) (length part) (with_part (pos low) part ds) ≡ part }
    ensures outside { (low : ℕ) (part ds : List Digit) (k : ℕ) → (k < low) ⊎ (low + length part ≤ k)
        → slice_get (with_part (pos low) part ds) k ≡ slice_get ds k }
{}

/// Each digit of a vector with a part put in, anywhere, is the part's where the part has one there.
pub fn digit_after_put()
    ensures { (low : ℤ) (part ds : List Digit) (k : ℕ) → k < length ds
        → slice_index_or (with_part low part ds) k X ≡ digit_at (pos k -ℤ low) part (slice_index_or ds k X) }
{}

/// A vector without x and z is its number, unsigned and signed, and the vector of a number has none.
pub fn known_vector_is_its_number()
    ensures unsigned { (ds : List Digit) → IsTrue (is_known ds) → of_number (length ds) (number ds) ≡ ds }
    ensures signed { (signed : Bool) (ds : List Digit) → IsTrue (is_known ds)
        → of_integer (length ds) (integer signed ds) ≡ ds }
    ensures known { (width n : ℕ) → IsTrue (is_known (of_number width n)) }
    ensures number { (width n : ℕ) → number (of_number width n) ≡ n % 2 ^ width }
{}
