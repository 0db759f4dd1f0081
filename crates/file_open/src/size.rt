// How many bytes a file has.
ghost use Rattle.std.specs.Prelude.{◌≡◌, ◌<◌, ◌≤◌};
ghost use Rattle.base_lengths.specs.Lengths.{most_samples};
ghost use Rattle.levels_filter.specs.Filters.{width_of};
ghost use Rattle.file_open.specs.Files.{new_size, file_size};

use crate::head::NEW_SIZE;
use levels_filter::filter::Filter;
use levels_filter::levels::laid_size;

// The bytes of the whole file, of the new kind.
pub fn file_size(f: Filter, levels: usize, n: usize) -> usize
    requires { (levels < 256) × (n ≤ most_samples) }
    ensures { result ≡ file_size new_size (width_of f) levels n }
{
    NEW_SIZE + laid_size(f, true, levels, n)
}
