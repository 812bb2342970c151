// The files of a case.
use std::io::ErrorKind;
use std::{fs, io};

/// A folder below the one that the program runs in.
#[derive(Drop)]
pub struct Folder<'a> {
    rt: &'a HostRuntime,
    name: &'a str,
}

impl<'a> Folder<'a> {
    /// The folder of this name.
    pub fn new(rt: &'a HostRuntime, name: &'a str) -> Folder<'a> {
        Folder { rt, name }
    }

    /// What a file holds, or `None` where there is no such file.
    ///
    /// # Errors
    /// It cannot be read, or memory was refused.
    pub fn find(&self, file: &str) -> io::Result<Option<Vec<u8>>> {
        let path = format!(in self.rt.alloc(); "{}/{file}", self.name)?;
        match fs::read(self.rt, path.as_str()) {
            Ok(bytes) => Ok(Some(bytes)),
            Err(error) if error.kind() == ErrorKind::NotFound => Ok(None),
            Err(error) => Err(error),
        }
    }

    /// What a file holds.
    ///
    /// # Errors
    /// There is no such file, it cannot be read, or memory was refused.
    pub fn get(&self, file: &str) -> io::Result<Vec<u8>> {
        match self.find(file)? {
            Some(bytes) => Ok(bytes),
            None => Err(io::Error::from(ErrorKind::NotFound)),
        }
    }

    /// The text that a file holds.
    ///
    /// # Errors
    /// As of `get`, or it is not UTF-8.
    pub fn text(&self, file: &str) -> io::Result<String> {
        match String::from_utf8(self.get(file)?) {
            Ok(text) => Ok(text),
            Err(_) => Err(io::Error::from(ErrorKind::InvalidData)),
        }
    }

    /// The number that a file holds.
    ///
    /// # Errors
    /// As of `text`, or it is no number.
    pub fn number(&self, file: &str) -> io::Result<u32> {
        match self.text(file)?.trim_end().parse::<u32>() {
            Ok(number) => Ok(number),
            Err(_) => Err(io::Error::from(ErrorKind::InvalidData)),
        }
    }
}
