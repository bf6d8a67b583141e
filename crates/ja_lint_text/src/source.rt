use ja_files::File;
use ja_graph::Program;

/// What messages are about: the program of the one text of some files, and the lines of that text
/// at which these begin.
#[derive(Clone, Copy)]
pub struct Source<'a> {
    pub program: &'a Program,
    pub files: &'a [File<'a>],
    pub first_lines: &'a [u32],
}
