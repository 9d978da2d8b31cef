// Contents of sub-tables.
ghost use Rattle.std.specs.Prelude.{◌≡◌, ◌==◌, ◌&&◌, ◌+◌, ◌<◌, bytes_eq, drop, length, true, false};
ghost use Rattle.section_codec.specs.Contents.{is_content, ContentsAreCompared};

use crate::table::NumberedBody;

/// Whether two contents have the same numbers and bodies, section by section.
pub fn same_content(a: &[NumberedBody], b: &[NumberedBody]) -> bool
    ensures { result ≡ is_content a.now b.now }
{
    if a.len() != b.len() {
        return false;
    }
    for i in 0..a.len() {
        if !is_same_section(&a[i], &b[i]) {
            return false;
        }
    }
    true
}

fn is_same_section(a: &NumberedBody, b: &NumberedBody) -> bool
    ensures { result ≡ (a.now.number == b.now.number && bytes_eq a.now.body b.now.body) }
{
    a.number == b.number && a.body.as_slice() == b.body.as_slice()
}

/// Contents are compared as values: the comparison is true exactly where they are equal.
pub fn contents_are_compared()
    ensures { ContentsAreCompared }
{}
