//! What images are, as contracts of functions that do nothing.

ghost use Rattle.std.specs.Prelude.{◌≡◌, ◌<◌, ◌^◌, ℕ, List, slice_index, Ok, Some, None};
ghost use Rattle.xp_words.specs.Machine.{Machine};
ghost use Rattle.machine_image.specs.Image.{image_of, IsImaged};
ghost use Rattle.machine_image.specs.Reading.{image_at, image_fault};

/// What is written is read back.
pub fn an_image_reads_back()
    ensures { (m : Machine) (words : List ℕ) → IsImaged m words → image_at (image_of m words) ≡ Ok (m, words) }
{}

/// An image has one spelling, and no two machines with their words share one.
pub fn an_image_has_one_spelling()
    ensures { (m n : Machine) (words others : List ℕ) → IsImaged m words → IsImaged n others → image_of m words ≡ image_of n others → (m ≡ n) × (words ≡ others) }
{}

/// Bytes in which there is no fault are an image.
pub fn bytes_without_fault_are_an_image()
    ensures { (bytes : List ℕ) → ((i : ℕ) → slice_index bytes i < 256) → image_fault bytes ≡ None → (m : Machine) × (words : List ℕ) × IsImaged m words × (bytes ≡ image_of m words) }
{}
