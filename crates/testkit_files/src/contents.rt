use std::alloc::{AllocError, Global};
use testkit::text_of;

/// A file's name and its bytes.
pub type File = (String, Vec<u8>);

/// The files of a text. A line `== NAME` begins a file, and each line below it is one of the file with its line feed; a
/// line `==` takes the last line feed away again.
pub fn files(alloc: Global, text: &[u8]) -> Result<Vec<File>, AllocError> {
    let mut files = Vec::new(alloc);
    let mut line = Vec::new(alloc);
    for byte in text {
        if *byte == b'\n' {
            add(alloc, &mut files, line.as_slice())?;
            line.clear();
        } else {
            line.push(*byte)?;
        }
    }
    add(alloc, &mut files, line.as_slice())?;
    Ok(files)
}

fn add(alloc: Global, files: &mut Vec<File>, line: &[u8]) -> Result<(), AllocError> {
    match line {
        [b'=', b'=', b' ', name @ ..] => {
            let name = String::from_str(alloc, text_of(name))?;
            files.push((name, Vec::new(alloc)))?;
        }
        [b'=', b'='] => {
            if let Some(file) = files.last_mut() {
                let _ = file.1.pop();
            }
        }
        _ => {
            if let Some(file) = files.last_mut() {
                file.1.extend_from_slice(line)?;
                file.1.push(b'\n')?;
            }
        }
    }
    Ok(())
}
