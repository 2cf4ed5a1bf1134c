//! What stands at the names of a folder.

use std::fs;
use std::fs::Permissions;
use std::os::unix::fs::{MetadataExt, PermissionsExt, symlink};

/// Who may read, write and run a file, and its size, where it is there.
pub type Mode = Option<(u32, u64)>;

pub fn mode_and_size(rt: &HostRuntime, name: &str) -> Mode {
    match fs::symlink_metadata(rt, name) {
        Ok(found) => Some((found.mode() & 0o777, found.len())),
        Err(_) => None,
    }
}

pub fn is_changed(rt: &HostRuntime, name: &str, mode: u32) -> bool {
    fs::set_permissions(rt, name, Permissions::from_mode(mode)).is_ok()
}

/// Whether a file holds a text.
pub fn holds(rt: &HostRuntime, name: &str, text: &str) -> bool {
    match fs::read_to_string(rt, name) {
        Ok(found) => found.as_str() == text,
        Err(_) => false,
    }
}

/// Whether nothing stands at a name, not even a link.
pub fn is_absent(rt: &HostRuntime, name: &str) -> bool {
    fs::symlink_metadata(rt, name).is_err()
}

pub fn is_removed(rt: &HostRuntime, name: &str) -> bool {
    fs::remove_file(rt, name).is_ok()
}

pub fn is_link(rt: &HostRuntime, name: &str) -> bool {
    fs::symlink_metadata(rt, name).is_ok_and(|found| found.is_symlink())
}

pub fn is_linked(rt: &HostRuntime, to: &str, name: &str) -> bool {
    symlink(rt, to, name).is_ok()
}
