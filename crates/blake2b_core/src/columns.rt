//! The mixing function G of RFC 7693, 3.1, on four columns or four diagonals at once. The working vector is four rows
//! of four words, and each row is a vector. No two columns share a word, so each column is a lane of these vectors.
ghost use Rattle.blake2b_core.specs.Compression.{◌!◌, ◌⊞◌, ◌⊻◌, ◌⋙◌};
ghost use Rattle.blake2b_core.specs.private.Columns.{columns, diagonals, rotated_row, words};
ghost use Rattle.std.specs.Prelude.{◌≡◌, ℕ, ◌<◌};

use std::simd::u64x4;

// The exclusive or of each pair of lanes, rotated to the right.
#[inline(always)]
#[tactic(auto, using(crate::proofs::ColumnLemmas::shifts_rotate))]
fn xor_rotate(x: u64x4, y: u64x4, bits: u64) -> u64x4
    requires low { 0 < bits }
    requires high { bits < 64 }
    ensures { (j : ℕ) → j < 4 → result ! j ≡ (x ! j ⊻ y ! j) ⋙ bits }
{
    let x = x ^ y;
    (x >> u64x4::splat(bits)) | (x << u64x4::splat(64 - bits))
}

// The sum of each pair of lanes.
#[inline(always)]
fn sums(x: u64x4, y: u64x4) -> u64x4
    ensures { (j : ℕ) → j < 4 → result ! j ≡ x ! j ⊞ y ! j }
{
    x + y
}

// G on the columns of the working vector, with the words `x` and `y`.
#[inline(always)]
pub(crate) fn mixed_columns(v: [u64x4; 4], x: u64x4, y: u64x4) -> [u64x4; 4]
    ensures { words result ≡ columns (words v) x y }
{
    let [a, b, c, d] = v;
    let a = sums(sums(a, b), x);
    let d = xor_rotate(d, a, 32);
    let c = sums(c, d);
    let b = xor_rotate(b, c, 24);
    let a = sums(sums(a, b), y);
    let d = xor_rotate(d, a, 16);
    let c = sums(c, d);
    let b = xor_rotate(b, c, 63);
    [a, b, c, d]
}

// The words of a row, rotated to the left by this many places.
#[inline(always)]
fn rotated_row(row: u64x4, places: usize) -> u64x4
    requires some { 0 < places }
    requires few { places < 4 }
    ensures { result ≡ rotated_row row places }
{
    match places {
        1 => row.rotate_elements_left::<1>(),
        2 => row.rotate_elements_left::<2>(),
        _ => row.rotate_elements_left::<3>(),
    }
}

// G on the diagonals. Three rows are rotated, so that the diagonals become columns, and are rotated back. The second
// row stays, since G begins and ends with it.
#[inline(always)]
pub(crate) fn mixed_diagonals(v: [u64x4; 4], x: u64x4, y: u64x4) -> [u64x4; 4]
    ensures { words result ≡ diagonals (words v) x y }
{
    let [a, b, c, d] = v;
    let v = [rotated_row(a, 3), b, rotated_row(c, 1), rotated_row(d, 2)];
    let [a, b, c, d] = mixed_columns(v, rotated_row(x, 3), rotated_row(y, 3));
    [rotated_row(a, 1), b, rotated_row(c, 3), rotated_row(d, 2)]
}
