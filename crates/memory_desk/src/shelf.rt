//! The files of a memory desk, found by name and read on.
ghost use Rattle.std.specs.Prelude.{◌≡◌, ◌++◌, min, length, take, drop, Some, None, IfSome, IfNone};
ghost use Rattle.std.specs.List.{position};
ghost use Rattle.memory_desk.specs.Shelf.{has_name, contents_of, text_at, rest_at};

use scad_fault::Text;

/// A file that is open, and how far it was read.
#[derive(Clone, Copy)]
pub struct Cursor {
    pub file: usize,
    pub at: usize,
}

fn find(files: &[(Text, Text)], name: &[u8]) -> Option<usize>
    ensures { result ≡ position (has_name name.now) files.now }
{
    files.iter().position(|file| file.0.as_slice() == name)
}

/// Opens the first file of this name.
#[tactic(auto, using(crate::proofs::Files::file_found, crate::proofs::Files::file_missing))]
pub fn open(files: &[(Text, Text)], name: &[u8]) -> Option<Cursor>
    ensures found { IfSome result (λ _.
        contents_of files.now name.now ≡ Some (rest_at files.now result)) }
    ensures missing { IfNone result (contents_of files.now name.now ≡ None) }
{
    let file = find(files, name)?;
    Some(Cursor { file, at: 0 })
}

fn text_of(files: &[(Text, Text)], file: usize) -> &[u8]
    ensures { result.now ≡ text_at files.now file }
{
    match files.get(file) {
        Some((_, text)) => text.as_slice(),
        None => &[],
    }
}

/// Reads the next bytes, as many as fit.
pub fn read(files: &[(Text, Text)], cursor: &mut Cursor, into: &mut [u8]) -> usize
    ensures count { result ≡ min (length into.old) (length (rest_at files.now (Some cursor.old))) }
    ensures bytes { let rest = rest_at files.now (Some cursor.old) in
        into.new ≡ take result rest ++ drop result into.old }
    ensures rest { let rest = rest_at files.now (Some cursor.old) in
        rest_at files.now (Some cursor.new) ≡ drop result rest }
{
    let text = text_of(files, cursor.file);
    let rest = &text[cursor.at.min(text.len())..];
    let n = into.len().min(rest.len());
    into[..n].copy_from_slice(&rest[..n]);
    cursor.at += n;
    n
}
