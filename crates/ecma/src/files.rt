//! The files that are reported on: those that the words give, those in directories, and those in a list.

use crate::faults::{FAULTY, refuse_for, refuse_text};
use crate::source::{read, refuse_bytes};
use ecma_command::file_names::{Chosen, is_chosen, is_left_for_jsx};
use ecma_stdio::text_of;
use std::alloc::AllocError;
use std::fs::DirEntry;
use std::{fs, io};

/// So many directories are looked into at most.
const MOST_DIRECTORIES: u64 = 4_294_967_296;

/// What is found in directories.
#[derive(Drop)]
struct Walk<'r> {
    rt: &'r HostRuntime,
    chosen: Chosen,
    /// Directories that are still to be looked into.
    directories: Vec<String>,
    files: Vec<String>,
    /// How many files were passed over for their JSX alone.
    left_for_jsx: u64,
    status: u8,
}

impl Walk<'_> {
    /// Reports that a directory, or something in it, cannot be read.
    fn refuse(&mut self, name: &str, error: io::Error) {
        self.status = refuse_for(self.rt, name, "cannot be read", Some(error)).max(self.status);
    }

    /// Takes in what a directory holds under a name. What is neither a directory nor a file that is chosen is passed over, links
    /// too, so that no directory is looked into twice.
    fn take_in(&mut self, entry: &DirEntry<HostRuntime>) -> Result<(), io::Error> {
        let kind = entry.file_type()?;
        if !is_chosen(self.chosen, entry.file_name(), kind.is_dir()) {
            if kind.is_file() && is_left_for_jsx(self.chosen, entry.file_name()) {
                self.left_for_jsx = self.left_for_jsx.saturating_add(1);
            }
            return Ok(());
        }
        let path = String::from_str(self.rt.alloc(), entry.path().as_str())?;
        if kind.is_dir() {
            self.directories.push(path)?;
        } else if kind.is_file() {
            self.files.push(path)?;
        }
        Ok(())
    }

    /// Looks into a directory.
    fn look_into(&mut self, directory: &str) {
        let entries = match fs::read_dir(self.rt, directory) {
            Ok(entries) => entries,
            Err(error) => return self.refuse(directory, error),
        };
        for entry in entries {
            let taken = match &entry {
                Ok(entry) => self.take_in(entry),
                Err(error) => Err(*error),
            };
            if let Err(error) = taken {
                self.refuse(directory, error);
            }
        }
    }

    /// Looks into all directories.
    fn look_into_all(&mut self) {
        'directories: for _ in 0..MOST_DIRECTORIES {
            let Some(directory) = self.directories.pop() else {
                return;
            };
            self.look_into(directory.as_str());
        }
    }
}

/// What there is in a directory and in those inside it, with its files sorted.
fn walked<'r>(
    rt: &'r HostRuntime,
    chosen: Chosen,
    directory: &str,
) -> Result<Walk<'r>, AllocError> {
    let mut directories = Vec::new(rt.alloc());
    directories.push(String::from_str(rt.alloc(), directory)?)?;
    let mut walk = Walk {
        rt,
        chosen,
        directories,
        files: Vec::new(rt.alloc()),
        left_for_jsx: 0,
        status: 0,
    };
    walk.look_into_all();
    walk.files.sort_unstable();
    Ok(walk)
}

/// Whether there is a directory with this name.
fn is_directory(rt: &HostRuntime, name: &str) -> bool {
    match fs::metadata(rt, name) {
        Ok(metadata) => metadata.is_dir(),
        Err(_) => false,
    }
}

/// What ends a name in a list.
#[derive(Clone, Copy, Debug, PartialEq, Eq)]
pub enum NameEnds {
    Line,
    Nul,
}

/// The files that are reported on.
#[derive(Drop)]
pub struct Files {
    pub names: Vec<String>,
    /// How many files in directories were passed over for their JSX alone.
    pub left_for_jsx: u64,
    /// The status that they led to.
    pub status: u8,
}

impl Files {
    /// None yet.
    pub fn new(rt: &HostRuntime) -> Files {
        Files {
            names: Vec::new(rt.alloc()),
            left_for_jsx: 0,
            status: 0,
        }
    }

    /// Adds a name, or those of the files in it where it is a directory and these are asked for.
    pub fn add(
        &mut self,
        rt: &HostRuntime,
        chosen: Option<Chosen>,
        name: &str,
    ) -> Result<(), AllocError> {
        match chosen {
            Some(chosen) if is_directory(rt, name) => {
                let mut walk = walked(rt, chosen, name)?;
                self.names.append(&mut walk.files)?;
                self.left_for_jsx = self.left_for_jsx.saturating_add(walk.left_for_jsx);
                self.status = self.status.max(walk.status);
            }
            _ => self.names.push(String::from_str(rt.alloc(), name)?)?,
        }
        Ok(())
    }

    /// Adds the names in a text, one a line, or each up to a NUL, as `add` does.
    fn add_names(
        &mut self,
        rt: &HostRuntime,
        chosen: Option<Chosen>,
        names: &str,
        ends: NameEnds,
    ) -> Result<(), AllocError> {
        match ends {
            NameEnds::Line => {
                for name in names.lines() {
                    self.add_some(rt, chosen, name)?;
                }
            }
            NameEnds::Nul => {
                for name in names.split('\0') {
                    self.add_some(rt, chosen, name)?;
                }
            }
        }
        Ok(())
    }

    /// Adds a name as `add` does, unless it is empty.
    fn add_some(
        &mut self,
        rt: &HostRuntime,
        chosen: Option<Chosen>,
        name: &str,
    ) -> Result<(), AllocError> {
        if name.is_empty() {
            return Ok(());
        }
        self.add(rt, chosen, name)
    }

    /// Adds the names in a file as `add` does.
    pub fn add_list(
        &mut self,
        rt: &HostRuntime,
        chosen: Option<Chosen>,
        list: &str,
        ends: NameEnds,
    ) -> Result<(), AllocError> {
        let bytes = match read(rt, list) {
            Ok(bytes) => bytes,
            Err(refusal) => {
                self.status = refuse_text(rt, list, refusal).max(FAULTY);
                return Ok(());
            }
        };
        match text_of(&bytes) {
            Ok(text) => {
                // Editors of some systems begin a list with a byte order mark.
                let names = text.strip_prefix('\u{feff}').unwrap_or(text);
                self.add_names(rt, chosen, names, ends)?;
            }
            Err(fault) => {
                self.status = refuse_bytes(rt, list, &bytes, fault).max(FAULTY);
            }
        }
        Ok(())
    }
}
