//! The options of a stage: which names its type has, which values they may hold, and how they are typed.
#![tactic(auto)]

mod assignments;
mod bounded;
mod file_names;
mod laws;
mod names;
mod options;
mod role;
mod rules;
mod stage;
mod tree;
mod values;

pub use assignments::AssignList;
pub use bounded::{LasFields, Places};
pub use file_names::{is_numbered, is_source, is_target, numbered};
pub use laws::roles_follow_types;
pub use names::{SourceName, TargetName, name_from};
pub use options::{
    AssignOptions, CropOptions, DecimationOptions, ExpressionOptions, FerryOptions, GroupbyOptions,
    HeadOptions, LasReaderOptions, LasWriterOptions, MergeOptions, Options, PlugOptions,
    RangeOptions, ReturnsOptions, SortOptions, SplitterOptions, TailOptions, TallyOptions,
    TextOptions, VoxeldownsizeOptions,
};
pub use role::Role;
pub use rules::{Allowed, Rule, rules_of};
pub use stage::StageSpec;
pub use tree::Tree;
pub use values::{Given, value_of};
