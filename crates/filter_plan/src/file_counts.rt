//! How many files options name.

ghost use Rattle.std.specs.Prelude.{◌≡◌, ◌≤◌, length};
ghost use Rattle.filter_plan.specs.Words.{file_list};

use aut_base::Text;

/// How many files an option names: 1 if it is given, else 0.
pub fn file_count(file: &Option<Text>) -> usize
    ensures is { result ≡ length (file_list file.now) }
    ensures few { result ≤ 1 }
{
    match file {
        Some(_) => 1,
        None => 0,
    }
}
