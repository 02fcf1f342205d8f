//! The committed files, in byte order of their names.
ghost use Rattle.std.specs.Prelude.{◌≡◌, ◌+◌, ◌<◌, ◌≤◌, length, vec_len};
ghost use Rattle.std.specs.List.Sorted.{IsSearchInRange};
ghost use Rattle.std.specs.Option.{option_copied};
ghost use Rattle.std.specs.Vec.{vec_capacity};
ghost use Rattle.qs_base.specs.Order.{bytes_cmp};
ghost use Rattle.qs_ops.specs.Files.{file_text, put_file};
ghost use Rattle.qs_ops.specs.Places.{IsInOrder, place_of};
ghost use Rattle.qs_ops.specs.Table.{remove_file};
ghost use Rattle.qs_book_tables.specs.Views.{set_text};

use qs_base::Bytes;
use qs_ops::File;
use std::cmp::Ordering;

/// Where the file of that name is, else where it would go.
pub fn place(files: &[File], name: &[u8]) -> Result<usize, usize>
    requires { IsInOrder files.now }
    ensures value { result ≡ place_of files.now name.now }
    ensures bound { IsSearchInRange result (length files.now) }
{
    files.binary_search_by(
        |file: &File| -> Ordering
            ensures { result ≡ bytes_cmp file.entry.now.name name.entry.now }
        { file.name.as_slice().cmp(name) },
    )
}

/// The committed text under a name.
pub fn file_text<'a>(files: &'a [File], name: &[u8]) -> Option<&'a Bytes>
    requires { IsInOrder files.now }
    ensures { option_copied result ≡ file_text files.now name.now }
{
    match place(files, name) {
        Ok(at) => Some(&files[at].content),
        Err(_) => None,
    }
}

/// Under that name there is nothing any more. It takes no memory.
fn remove_file(files: &mut Vec<File>, name: &[u8])
    requires { IsInOrder files.old.items }
    ensures value { files.new.items ≡ remove_file files.old.items name.now }
    ensures order { IsInOrder files.new.items }
    ensures len { vec_len files.new ≤ vec_len files.old }
    ensures capacity { vec_capacity files.old ≤ vec_capacity files.new }
{
    match place(files, name) {
        Ok(at) => {
            files.remove(at);
        }
        Err(_) => {}
    }
}

/// Under that name there is this text from now on, or nothing.
pub fn set_text(files: &mut Vec<File>, name: Bytes, text: Option<Bytes>)
    requires room { vec_len files.old < vec_capacity files.old }
    requires order { IsInOrder files.old.items }
    ensures value { files.new.items ≡ set_text files.old.items name text }
    ensures order { IsInOrder files.new.items }
    ensures len { vec_len files.new ≤ vec_len files.old + 1 }
    ensures capacity { vec_capacity files.old ≤ vec_capacity files.new }
{
    match text {
        Some(text) => put_file(files, name, text),
        None => remove_file(files, name.as_slice()),
    }
}

/// The file has this text from now on; names stay in byte order.
fn put_file(files: &mut Vec<File>, name: Bytes, text: Bytes)
    requires room { vec_len files.old < vec_capacity files.old }
    requires order { IsInOrder files.old.items }
    ensures value { files.new.items ≡ put_file files.old.items name text }
    ensures order { IsInOrder files.new.items }
    ensures len { vec_len files.new ≤ vec_len files.old + 1 }
    ensures capacity { vec_capacity files.old ≤ vec_capacity files.new }
{
    let place = place(files, name.as_slice());
    let file = File {
        name,
        content: text,
    };
    match place {
        Ok(at) => files[at] = file,
        Err(at) => {
            let Ok(()) = files.insert(at, file) else {
                unreachable!()
            };
        }
    }
}
