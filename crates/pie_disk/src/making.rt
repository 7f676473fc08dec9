//! New files and directories, which their owner can use whatever the process leaves out by its umask. Each is
//! made under a name of its own, and is put into its place when it is done.

use crate::disk::Disk;
use pie_base::OutOfMemory;
use std::fs::{self, File, Permissions};
use std::io::{self, ErrorKind, Write};
use std::os::unix::fs::PermissionsExt;

// The name of a new entry, until it takes its place. It is no segment of a path, so no listing shows it.
pub(crate) const FRESH: &str = "\u{7f}new";

// What the owner of a new file and of a new directory may do at least.
const FILE_RIGHTS: u32 = 0o600;

const DIR_RIGHTS: u32 = 0o700;

impl Disk {
    /// Makes a new file of these bytes, in the place of one that was left there.
    pub(crate) fn make_file(&self, place: &str, bytes: &[u8]) -> io::Result<()> {
        let mut file = self.create(place)?;
        let mode = file.metadata()?.permissions().mode();
        if mode & FILE_RIGHTS != FILE_RIGHTS {
            file.set_permissions(Permissions::from_mode(mode | FILE_RIGHTS))?;
        }
        file.write_all(bytes)
    }

    /// Makes a new directory at a fresh place, and puts it into its place.
    pub(crate) fn make_dir(&self, fresh: &str, place: &str) -> io::Result<()> {
        self.create_dir(fresh)?;
        let mode = fs::symlink_metadata(&self.rt, fresh)?.permissions().mode();
        if mode & DIR_RIGHTS != DIR_RIGHTS {
            fs::set_permissions(&self.rt, fresh, Permissions::from_mode(mode | DIR_RIGHTS))?;
        }
        fs::rename(&self.rt, fresh, place)
    }

    /// The fresh place for what is to stand at a place: in the topmost directory above, which is
    /// mostly of the same file system.
    pub(crate) fn fresh_place(&self, place: &str) -> Result<String, OutOfMemory> {
        let below = place
            .split_at_checked(self.root.len())
            .map_or(place, |p| p.1);
        match below.split_once('/') {
            Some((top, _)) => Ok(format!(in self.alloc(); "{}{top}/{FRESH}", self.root)?),
            None => Ok(format!(in self.alloc(); "{}{FRESH}", self.root)?),
        }
    }

    /// Takes away what stands at a place, without following it: an entry, or a directory and all below it.
    pub(crate) fn take_away(&self, place: &str) -> io::Result<()> {
        match fs::remove_file(&self.rt, place) {
            Err(e) if e.kind() == ErrorKind::IsADirectory => self.take_away_dir(place),
            answer => answer,
        }
    }

    // An empty directory goes whatever its rights are.
    fn take_away_dir(&self, place: &str) -> io::Result<()> {
        match fs::remove_dir(&self.rt, place) {
            Ok(()) => Ok(()),
            Err(_) => fs::remove_dir_all(&self.rt, place),
        }
    }

    fn create(&self, place: &str) -> io::Result<File> {
        match File::create_new(&self.rt, place) {
            Err(e) if e.kind() == ErrorKind::AlreadyExists => {
                self.take_away(place)?;
                File::create_new(&self.rt, place)
            }
            answer => answer,
        }
    }

    fn create_dir(&self, place: &str) -> io::Result<()> {
        match fs::create_dir(&self.rt, place) {
            Err(e) if e.kind() == ErrorKind::AlreadyExists => {
                self.take_away(place)?;
                fs::create_dir(&self.rt, place)
            }
            answer => answer,
        }
    }
}
