//! The names of files, such as the stages of a pipeline may have them.

ghost use Rattle.std.specs.Prelude.{◌≡◌, ℕ, List, IsTrue, IfOk};
ghost use Rattle.stage_options.specs.Values.{is_source, is_target};

use file_devices::Name;
use std::alloc::{AllocError, Global};
use std::marker::Model;

/// The name of a file that is read, which contracts see as the list of its bytes. It doesn't end as the name of a file that
/// isn't done yet does.
#[derive(Drop)]
pub struct SourceName {
    name: Name,
}

impl Model for SourceName {
    ghost use Rattle.std.specs.Prelude.{ℕ, List, IsTrue};
    ghost use Rattle.stage_options.specs.Values.{is_source};

    ghost Value = { List ℕ };

    ghost view = { λ n. n.name };

    ghost invariant = { λ n. IsTrue (is_source n.name) };
}

impl SourceName {
    /// This name. It takes no memory.
    pub fn new(name: Name) -> Self
        requires { IsTrue (is_source name) }
        ensures { result ≡ name }
    {
        SourceName { name }
    }

    /// The text of the name.
    pub fn as_str(&self) -> &str
        ensures text { result.now ≡ self.now }
        ensures is_source { IsTrue (is_source result.now) }
    {
        self.name.as_str()
    }
}

/// The name of a file that is written, which contracts see as the list of its bytes. It has at most one `#`, for which the
/// numbers of views stand in the names of their files, and doesn't end as the name of a file that isn't done yet does.
#[derive(Drop)]
pub struct TargetName {
    name: Name,
}

impl Model for TargetName {
    ghost use Rattle.std.specs.Prelude.{ℕ, List, IsTrue};
    ghost use Rattle.stage_options.specs.Values.{is_target};

    ghost Value = { List ℕ };

    ghost view = { λ n. n.name };

    ghost invariant = { λ n. IsTrue (is_target n.name) };
}

impl TargetName {
    /// This name. It takes no memory.
    pub fn new(name: Name) -> Self
        requires { IsTrue (is_target name) }
        ensures { result ≡ name }
    {
        TargetName { name }
    }

    /// The text of the name.
    pub fn as_str(&self) -> &str
        ensures text { result.now ≡ self.now }
        ensures is_target { IsTrue (is_target result.now) }
    {
        self.name.as_str()
    }
}

/// A text as a name. Refused only where memory is wanting.
pub fn name_from(alloc: Global, text: &str) -> Result<Name, AllocError>
    ensures { IfOk result (λ name. name ≡ text.now) }
{
    Ok(Name::new(String::from_str(alloc, text)?))
}
