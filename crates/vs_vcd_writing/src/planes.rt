//! Words in flat planes.
ghost use Rattle.std.specs.Prelude.{◌≡◌, ℕ, ◌<◌, ◌≤◌, [], ◌∷◌, List, IfOk, Some, length, replicate, slice_get, slice_index, slice_set};
ghost use Rattle.vs_design.specs.vs_logic4.specs.declared.digit.Digit.{Digit};
ghost use Rattle.vs_design.specs.vs_logic4.specs.declared.digit.Digit.TheVariants.{X};
ghost use Rattle.vs_design.specs.vs_logic4.specs.Changes.{change};
ghost use Rattle.vs_design.specs.vs_logic4.specs.Vectors.{same_digits};
ghost use Rattle.vs_vcd_writing.specs.Planes.{are_same};

use std::alloc::{AllocError, Global};
use std::marker::Model;
use vs_design::vs_logic4::{Vec4, changed};

/// Words of 1 to 64 digits: of each its width, its value plane and its unknown plane. A contract sees the list of the words.
#[derive(Drop)]
pub(crate) struct Planes {
    widths: Vec<u64>,
    values: Vec<u64>,
    unknowns: Vec<u64>,
}

impl Model for Planes {
    ghost use Rattle.std.specs.Prelude.{List};
    ghost use Rattle.vs_design.specs.vs_logic4.specs.declared.digit.Digit.{Digit};
    ghost use Rattle.vs_vcd_writing.specs.Planes.{words_of, AreWords};

    ghost Value = { List (List Digit) };

    ghost view = { λ p. words_of p.widths.items p.values.items p.unknowns.items };

    ghost invariant = { λ p. AreWords p.widths.items p.values.items p.unknowns.items };
}

/// Sets the flags from one number on, below another: to 1 where two planes differ, else to 0.
fn compare_plane(old: &[u64], new: &[u64], flags: &mut [u8], from: usize, to: usize)
    requires order { from ≤ to }
    requires within { to ≤ length old.now }
    requires new_len { length new.now ≡ length old.now }
    requires flags_len { length flags.old ≡ length old.now }
    ensures { (k : ℕ) → from ≤ k → k < to
        → slice_index flags.new k ≡ change (slice_index old.now k) (slice_index new.now k) }
{
    changed(&old[from..to], &new[from..to], &mut flags[from..to]);
}

impl Planes {
    /// So many words, each of one x.
    pub fn unknown(alloc: Global, count: usize) -> Result<Self, AllocError>
        ensures { IfOk result (λ p. p ≡ replicate count (X ∷ [])) }
    {
        Ok(Planes {
            widths: vec![in alloc; 1; count]?,
            values: vec![in alloc; 1; count]?,
            unknowns: vec![in alloc; 1; count]?,
        })
    }

    /// The word of a number.
    pub fn word(&self, index: usize) -> Vec4
        requires { index < length self.now }
        ensures { slice_get self.now index ≡ Some result }
    {
        Vec4::from_planes(
            self.widths[index] as u32,
            self.values[index],
            self.unknowns[index],
        )
    }

    /// Puts a word in the place of that of a number.
    pub fn set(&mut self, index: usize, word: Vec4)
        requires { index < length self.old }
        ensures { self.new ≡ slice_set self.old index word }
    {
        self.widths[index] = word.width() as u64;
        self.values[index] = word.value_plane();
        self.unknowns[index] = word.unknown_plane();
    }

    /// Compares the words from one number on, below another, with those of other planes, plane by plane: the flags of a word
    /// that is the same are all 0.
    pub fn compare(
        &self,
        new: &Planes,
        widths: &mut [u8],
        values: &mut [u8],
        unknowns: &mut [u8],
        from: usize,
        to: usize,
    )
        requires order { from ≤ to }
        requires within { to ≤ length self.now }
        requires new_len { length new.now ≡ length self.now }
        requires widths_len { length widths.old ≡ length self.now }
        requires values_len { length values.old ≡ length self.now }
        requires unknowns_len { length unknowns.old ≡ length self.now }
        ensures { (k : ℕ) (x y : List Digit) → from ≤ k → k < to → slice_get self.now k ≡ Some x → slice_get new.now k ≡ Some y
            → are_same (slice_index widths.new k) (slice_index values.new k) (slice_index unknowns.new k) ≡ same_digits x y }
    {
        compare_plane(&self.widths, &new.widths, widths, from, to);
        compare_plane(&self.values, &new.values, values, from, to);
        compare_plane(&self.unknowns, &new.unknowns, unknowns, from, to);
    }
}
