//! What follows of the bytes of a file.

ghost use Rattle.std.specs.Prelude.{◌≡◌, ℕ, List, IsOk, Ok, min};
ghost use Rattle.awari_table.specs.declared.images.Image.{Image};
ghost use Rattle.awari_rank.specs.Rank.{size_of};
ghost use Rattle.awari_file.specs.declared.contents.Header.{Header as AHeader};
ghost use Rattle.awari_file.specs.declared.faults.FileFault.TheVariants.{Truncated};
ghost use Rattle.awari_file.specs.FileText.{HasFile, file_text};
ghost use Rattle.awari_file.specs.Reading.{entries_at, header_at};
ghost use Rattle.awari_file.specs.Source.{BeginsRight};

/// No two files have the same bytes, unless image, digest and version are the same.
pub fn files_tell_images_apart()
    ensures { (version other : ℕ) (image shown : Image) (below under : List ℕ)
        → HasFile version image below → HasFile other shown under
        → file_text version image below ≡ file_text other shown under → (version ≡ other) × (image ≡ shown) × (below ≡ under) }
{}

/// The entries that are read at once are 680, or all if there are fewer: a file that begins right has a
/// right header, and this many right entries.
pub fn first_entries_are_680()
    ensures { (bytes : List ℕ) → BeginsRight bytes → (header : AHeader) × (rest : List ℕ) × (header_at Truncated bytes ≡ Ok (header, rest))
        × IsOk (entries_at (min (size_of header.level) 680) Truncated rest) }
{}
