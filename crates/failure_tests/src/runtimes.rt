//! A runtime whose disk fails.

use std::alloc::{AllocError, Allocator, Global};
use std::cell::Cell;
use std::fs::{File, Metadata, OpenOptions};
use std::io;
use std::rt::Files;

/// A runtime that opens a device in place of files with one name, a number of times; meanwhile,
/// metadata of that name is the device's. A file that is to be created exists and stays empty.
#[derive(Drop)]
pub(crate) struct Diverted<'a> {
    pub(crate) rt: &'a HostRuntime,
    pub(crate) name: &'a str,
    pub(crate) device: &'a str,
    pub(crate) times: &'a Cell<u32>,
}

impl Clone for Diverted<'_> {
    fn clone(&self) -> Result<Self, AllocError> {
        Ok(Diverted {
            rt: self.rt,
            name: self.name,
            device: self.device,
            times: self.times,
        })
    }
}

impl Alloc for Diverted<'_> {
    type A = Global;

    fn alloc(&self) -> Global {
        self.rt.alloc()
    }
}

impl Files for Diverted<'_> {
    type File = File;

    type Dir = <HostRuntime as Files>::Dir;

    fn open_file(&self, how: &OpenOptions, path: &str) -> io::Result<File> {
        let times = self.times.get();
        if times > 0 && path.ends_with(self.name) {
            self.times.set(times - 1);
            if how.asks_create_new() {
                self.rt.open_file(how, path)?;
            }
            return File::options()
                .read(true)
                .write(true)
                .open(self.rt, self.device);
        }
        self.rt.open_file(how, path)
    }

    fn open_dir(&self, path: &str) -> io::Result<Self::Dir> {
        self.rt.open_dir(path)
    }

    fn metadata(&self, path: &str) -> io::Result<Metadata> {
        if self.times.get() > 0 && path.ends_with(self.name) {
            return self.rt.metadata(self.device);
        }
        self.rt.metadata(path)
    }

    fn symlink_metadata(&self, path: &str) -> io::Result<Metadata> {
        self.rt.symlink_metadata(path)
    }

    fn copy(&self, from: &str, to: &str) -> io::Result<u64> {
        self.rt.copy(from, to)
    }

    fn rename(&self, from: &str, to: &str) -> io::Result<()> {
        self.rt.rename(from, to)
    }

    fn remove_file(&self, path: &str) -> io::Result<()> {
        self.rt.remove_file(path)
    }

    fn create_dir(&self, path: &str) -> io::Result<()> {
        self.rt.create_dir(path)
    }

    fn remove_dir(&self, path: &str) -> io::Result<()> {
        self.rt.remove_dir(path)
    }

    fn remove_dir_all<B: Allocator>(&self, alloc: B, path: &str) -> io::Result<()> {
        self.rt.remove_dir_all(alloc, path)
    }

    fn hard_link(&self, original: &str, link: &str) -> io::Result<()> {
        self.rt.hard_link(original, link)
    }
}
