//! Laws of options.

ghost use Rattle.std.specs.Prelude.{◌≡◌, is_some};
ghost use Rattle.stage_names.specs.Kinds.{is_reader, is_writer};
ghost use Rattle.stage_options.specs.declared.options.Options.{Options};
ghost use Rattle.stage_options.specs.Kinds.{kind_of};
ghost use Rattle.stage_options.specs.Roles.{role_of, is_reading, written_name};

/// A stage reads a file exactly where its type is a reader's, and names one or more to be written exactly where it is a
/// writer's.
pub fn roles_follow_types()
    ensures reads { (options : Options) → is_reading (role_of options) ≡ is_reader (kind_of options) }
    ensures writes { (options : Options)
        → is_some (written_name (role_of options)) ≡ is_writer (kind_of options) }
{}
