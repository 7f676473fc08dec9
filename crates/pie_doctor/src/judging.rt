//! Who the user is, and what the rights of a folder give to that user.

use crate::look::Judged;
use pie_base::OutOfMemory;
use std::alloc::Global;

// What a folder's entries want that are to be listed, made and removed.
const USE: u32 = 0o7;

// In a folder with this right an entry is removed by its owner or by the folder's alone.
const STICKY: u32 = 0o1000;

// Passes over the rights of files and folders, among the capabilities of a process.
const OVERRIDE: u64 = 2;

/// Who the user is, as far as the system tells.
#[derive(Drop)]
pub(crate) struct User {
    id: Option<u32>,
    groups: Vec<u32>,
    is_mighty: bool,
}

/// Who owns an entry, and what its rights are.
#[derive(Clone, Copy)]
pub(crate) struct Rights {
    pub(crate) mode: u32,
    pub(crate) owner: u32,
    pub(crate) group: u32,
}

impl User {
    /// A user of whom nothing is known.
    pub(crate) fn unknown(alloc: Global) -> User {
        User {
            id: None,
            groups: Vec::new(alloc),
            is_mighty: false,
        }
    }

    /// The user that a process has whose status is this text, in the form of Linux: what counts for files is the fourth number of `Uid` and `Gid`.
    pub(crate) fn of_status(alloc: Global, status: &str) -> Result<User, OutOfMemory> {
        let mut user = User::unknown(alloc);
        for line in status.lines() {
            user.take(line)?;
        }
        Ok(user)
    }

    fn take(&mut self, line: &str) -> Result<(), OutOfMemory> {
        let Some((name, rest)) = line.split_once(':') else {
            return Ok(());
        };
        match name {
            "Uid" => {
                self.id = fourth(rest);
                Ok(())
            }
            "Gid" => self.take_group(rest),
            "Groups" => self.take_groups(rest),
            "CapEff" => {
                self.is_mighty = has_override(rest.trim());
                Ok(())
            }
            _ => Ok(()),
        }
    }

    fn take_group(&mut self, rest: &str) -> Result<(), OutOfMemory> {
        if let Some(group) = fourth(rest) {
            self.groups.push(group)?;
        }
        Ok(())
    }

    fn take_groups(&mut self, rest: &str) -> Result<(), OutOfMemory> {
        for word in rest.split_ascii_whitespace() {
            if let Ok(group) = word.parse::<u32>() {
                self.groups.push(group)?;
            }
        }
        Ok(())
    }

    /// Whether this user can list, make and remove entries of a folder with these rights. Access lists, a file system that is mounted to be read alone and a full
    /// one aren't seen.
    pub(crate) fn judge(&self, rights: Rights) -> Judged {
        if self.is_mighty {
            return Judged::Yes;
        }
        match self.id {
            Some(id) => self.judge_of(id, rights),
            None => Judged::Unknown,
        }
    }

    fn judge_of(&self, id: u32, rights: Rights) -> Judged {
        let given = if id == rights.owner {
            rights.mode >> 6
        } else if self.is_in(rights.group) {
            rights.mode >> 3
        } else {
            rights.mode
        };
        if given & USE != USE {
            Judged::No
        } else if rights.mode & STICKY != 0 && id != rights.owner {
            Judged::Unknown
        } else {
            Judged::Yes
        }
    }

    fn is_in(&self, group: u32) -> bool {
        for other in &self.groups {
            if *other == group {
                return true;
            }
        }
        false
    }
}

// The fourth number of a line.
fn fourth(rest: &str) -> Option<u32> {
    let mut at: u32 = 0;
    for word in rest.split_ascii_whitespace() {
        if at == 3 {
            return word.parse::<u32>().ok();
        }
        at = at.saturating_add(1);
    }
    None
}

fn has_override(digits: &str) -> bool {
    match u64::from_str_radix(digits, 16) {
        Ok(all) => all & OVERRIDE != 0,
        Err(_) => false,
    }
}
