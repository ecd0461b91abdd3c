//! How many files a project may have, and how large they may be.
ghost use Rattle.std.specs.Prelude.{◌≡◌, ◌+◌, ◌≤◌, length};
ghost use Rattle.yarn_tree.specs.Size.{is_big, is_too_much, too_much, big_alone};

use yarn_base::{Place, SourceFile};

const MOST_FILES: u32 = 256;

const LARGEST_FILE: usize = 4194304;

const LARGEST_PROJECT: usize = 33554432;

/// The first file that is too much.
pub(crate) fn too_much_in(sources: &[SourceFile]) -> Option<Place>
    ensures { result ≡ too_much 0 0 sources.now }
{
    let mut file = 0;
    let mut sum = 0;
    for source in sources {
        if is_too_much_at(file, sum, source) {
            return Some(Place { file, line: 0 });
        }
        file += 1;
        sum += source.bytes.len();
    }
    None
}

// Whether that file is too much behind so many files of so many bytes.
fn is_too_much_at(file: u32, sum: usize, source: &SourceFile) -> bool
    requires { sum ≤ 33554432 }
    ensures { result ≡ is_too_much file sum source.now }
{
    file >= MOST_FILES || is_big_file(source) || sum + source.bytes.len() > LARGEST_PROJECT
}

fn is_big_file(source: &SourceFile) -> bool
    ensures { result ≡ is_big source.now }
{
    source.bytes.len() > LARGEST_FILE
}

/// The place of a file that is read alone, where it is too much.
pub(crate) fn too_much_alone(source: &SourceFile) -> Option<Place>
    ensures { result ≡ big_alone source.now }
{
    is_big_file(source).then_some(Place { file: 0, line: 0 })
}
